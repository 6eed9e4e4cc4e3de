// A sink in memory, of fixed room.
ghost use Rattle.std.specs.Prelude.{◌≡◌, ◌<◌, ◌≤◌, [], length, IfOk};
ghost use Rattle.ep_edge.specs.Edge.{Appends, AppendsFront, offer, write_faults};
ghost use Rattle.ep_edge.specs.Memory.{none_made, write_answer, after_write};

use crate::failures::Failures;
use crate::{Put, Sink};
use ep_model::{NoMemory, Out};
use std::alloc::Global;
use std::marker::Model;

/// A sink that holds what is written to it, up to a fixed number of bytes, and fails where it was told to.
#[derive(Drop)]
pub struct MemorySink {
    out: Out,
    /// How many bytes it held as the last write began.
    held_before: usize,
    failures: Failures,
    faults: u64,
    /// How often it had failed as the last write began.
    faults_before: u64,
    /// How many bytes the last write was to write.
    offered: usize,
}

impl Model for MemorySink {
    ghost use Rattle.std.specs.Prelude.{take};
    ghost use Rattle.ep_edge.specs.declared.data.SinkData.{SinkData};

    ghost Value = { SinkData };

    ghost view = { λ s. record {
      held = s.out.bytes;
      held_before = take s.held_before s.out.bytes;
      spare = s.out.spare;
      failures = s.failures;
      faults = s.faults;
      faults_before = s.faults_before;
      offered = s.offered;
    } };
}

impl MemorySink {
    /// An empty sink for `capacity` bytes, all of whose memory is taken here. The writes with a number in
    /// `fails` fail and write nothing, counted from 0. Its cost is linear in `capacity`.
    pub fn new(alloc: Global, capacity: usize, fails: Vec<u64>) -> Result<MemorySink, NoMemory>
        ensures { IfOk result (λ sink. sink ≡ record {
          held = [];
          held_before = [];
          spare = capacity;
          failures = none_made fails.items;
          faults = 0;
          faults_before = 0;
          offered = 0;
        }) }
    {
        Ok(MemorySink {
            out: Out::new(alloc, capacity)?,
            held_before: 0,
            failures: Failures::new(fails),
            faults: 0,
            faults_before: 0,
            offered: 0,
        })
    }

    /// The bytes that it holds.
    pub fn bytes(&self) -> &[u8]
        ensures { result.now ≡ self.now.held }
    {
        self.out.bytes()
    }
}

impl Sink for MemorySink {
    ghost use Rattle.std.specs.Prelude.{Some};

    ghost held = { λ s. Some s.held };

    ghost faults = { λ s. s.faults };

    ghost last_offer = { λ s. offer (Some s.held_before) s.faults_before s.offered };

    /// Its cost is linear in the number of bytes and in that of the writes that fail.
    fn write(&mut self, bytes: &[u8]) -> Put
        requires { 0 < length bytes.now }
        ensures done { result ≡ Put.Done → Appends (Some self.old.held) (Some self.new.held)
            bytes.now }
        ensures failed { result ≡ Put.Failed → AppendsFront (Some self.old.held)
            (Some self.new.held) bytes.now }
        ensures faults { self.new.faults ≡ write_faults result self.old.faults }
        ensures offered { offer (Some self.new.held_before) self.new.faults_before self.new.offered
            ≡ offer (Some self.old.held) self.old.faults (length bytes.now) }
        ensures answer { result ≡ write_answer self.old bytes.now }
        ensures after { self.new ≡ after_write self.old bytes.now }
    {
        self.held_before = self.out.bytes().len();
        self.faults_before = self.faults;
        self.offered = bytes.len();
        if self.failures.next_fails() {
            self.faults = self.faults.saturating_add(1);
            return Put::Failed;
        }
        let count = bytes.len().min(self.out.spare());
        self.out.push(&bytes[..count]);
        if count < bytes.len() {
            self.faults = self.faults.saturating_add(1);
            return Put::Failed;
        }
        Put::Done
    }
}
