// A source in memory, which tests cut and break as they like.
ghost use Rattle.std.specs.Prelude.{◌≡◌, ◌<◌, ◌≤◌, ◌||◌, ◌+◌, ◌++◌, ℕ, true, false, length, take, drop};
ghost use Rattle.ep_edge.specs.Edge.{TakesBytes, IsEmptied, bytes_read, is_end, read_faults};
ghost use Rattle.ep_edge.specs.Memory.{none_made, read_limit, read_answer, read_buffer, after_read};

use crate::failures::Failures;
use crate::{Got, Source};
use std::marker::Model;

/// A source that gives a list of bytes in pieces, and fails where it was told to.
#[derive(Drop)]
pub struct MemorySource {
    bytes: Vec<u8>,
    /// How many of the bytes were given.
    given: usize,
    /// How many were given as the last read began.
    given_before: usize,
    pieces: Vec<u32>,
    /// How many of the pieces were used.
    used: usize,
    failures: Failures,
    ended: bool,
    /// Whether it had ended as the last read began.
    ended_before: bool,
    faults: u64,
}

impl Model for MemorySource {
    ghost use Rattle.std.specs.Prelude.{◌≡◌, ◌≤◌, true, [], drop, length};
    ghost use Rattle.ep_edge.specs.declared.data.SourceData.{SourceData};

    ghost Value = { SourceData };

    ghost view = { λ s. record {
      left = drop s.given s.bytes.items;
      left_before = drop s.given_before s.bytes.items;
      pieces = drop s.used s.pieces.items;
      failures = s.failures;
      ended = s.ended;
      ended_before = s.ended_before;
      faults = s.faults;
    } };

    ghost invariant = { λ s. (s.given ≤ length s.bytes.items) × (s.used ≤ length s.pieces.items)
        × (s.ended ≡ true → drop s.given s.bytes.items ≡ []) };
}

impl MemorySource {
    /// A source of these bytes. The reads with a number in `fails` fail, counted from 0. Of those that don't,
    /// the n-th gives no more than `pieces[n]` bytes, where 0 counts as 1; reads beyond the list have no such
    /// bound.
    pub fn new(bytes: Vec<u8>, pieces: Vec<u32>, fails: Vec<u64>) -> MemorySource
        ensures { result ≡ record {
          left = bytes.items;
          left_before = bytes.items;
          pieces = pieces.items;
          failures = none_made fails.items;
          ended = false;
          ended_before = false;
          faults = 0;
        } }
    {
        MemorySource {
            bytes,
            given: 0,
            given_before: 0,
            pieces,
            used: 0,
            failures: Failures::new(fails),
            ended: false,
            ended_before: false,
            faults: 0,
        }
    }
}

impl Source for MemorySource {
    ghost use Rattle.std.specs.Prelude.{Some};

    ghost left = { λ s. Some s.left };

    ghost has_ended = { λ s. s.ended };

    ghost faults = { λ s. s.faults };

    ghost left_before = { λ s. Some s.left_before };

    ghost ended_before = { λ s. s.ended_before };

    /// Its cost is linear in the number of bytes given and in that of the reads that fail.
    fn read(&mut self, into: &mut [u8]) -> Got
        requires { 0 < length into.old }
        ensures count { (n : ℕ) → result ≡ Got.Bytes n → (0 < n) × (n ≤ length into.new) }
        ensures takes { TakesBytes (Some self.old.left) (Some self.new.left)
            (bytes_read result into.new) }
        ensures ended { self.new.ended ≡ (self.old.ended || is_end result) }
        ensures end { result ≡ Got.End → IsEmptied (Some self.new.left) }
        ensures after_end { (n : ℕ) → self.old.ended ≡ true → result ≡ Got.Bytes n → ⊥ }
        ensures faults { self.new.faults ≡ read_faults result self.old.faults }
        ensures before { Some self.new.left_before ≡ Some self.old.left }
        ensures behind { self.new.ended_before ≡ self.old.ended }
        ensures answer { result ≡ read_answer self.old (length into.old) }
        ensures buffer { into.new ≡ read_buffer self.old into.old }
        ensures after { self.new ≡ after_read self.old (length into.old) }
    {
        self.given_before = self.given;
        self.ended_before = self.ended;
        if self.failures.next_fails() {
            self.faults = self.faults.saturating_add(1);
            return Got::Failed;
        }
        let limit = limit_at(&self.pieces, self.used, into.len());
        let count = copy_piece(&self.bytes, self.given, into, limit);
        self.given += count;
        self.used = (self.used + 1).min(self.pieces.len());
        if count == 0 {
            self.ended = true;
            Got::End
        } else {
            Got::Bytes(count)
        }
    }
}

/// The most bytes that a read gives where `used` pieces were used.
fn limit_at(pieces: &[u32], used: usize, room: usize) -> usize
    ensures { result ≡ read_limit (drop used pieces.now) room }
{
    match pieces.get(used) {
        Some(piece) => room.min((*piece).max(1) as usize),
        None => room,
    }
}

/// Copies bytes from the place `given` on to the front of `into`, at most `limit`, and answers how many.
fn copy_piece(bytes: &[u8], given: usize, into: &mut [u8], limit: usize) -> usize
    requires given { given ≤ length bytes.now }
    requires limit { limit ≤ length into.old }
    ensures count { result ≡ length (take limit (drop given bytes.now)) }
    ensures left { drop (given + result) bytes.now ≡ drop limit (drop given bytes.now) }
    ensures copied { into.new ≡ take limit (drop given bytes.now) ++ drop result into.old }
    ensures within { given + result ≤ length bytes.now }
{
    let count = limit.min(bytes.len() - given);
    into[..count].copy_from_slice(&bytes[given..given + count]);
    count
}
