// Bytes in pieces of any size become whole frames and a rest.
ghost use Rattle.std.specs.Prelude.{◌≡◌, ◌≢◌, true, false, ◌||◌, ℕ, ◌+◌, ◌-◌, ◌<◌, ◌≤◌, ◌^◌, ◌++◌, [], length, slice_index, take, drop, min, IfOk};
ghost use Rattle.std.specs.Borrow.{sem};
ghost use Rattle.std.specs.Io.BufRead.{Rests};
ghost use Rattle.ep_edge.specs.Edge.{TakesBytes, IsEmptied, bytes_read, is_end, read_faults};
ghost use Rattle.mcbp_frame.specs.Division.{IsPartial};
ghost use Rattle.mcbp_frame.specs.Feeder.{Gives, after_next};
ghost use Rattle.mcbp_frame.specs.Piece.{Feeds, count_of};
ghost use Rattle.mcbp_frame.specs.Header.{request_magic, feeder_room};
ghost use Rattle.mcbp_frame.specs.Frames.{IsFrame, body_length, frame_at, frame_data};

use crate::frame::{Frame, HEADER, MAX_BODY, REQUEST};
use byteorder::{BigEndian, ByteOrder};
use ep_edge::{Got, Source};
use ep_model::NoMemory;
use std::alloc::Global;
use std::collections::LinkedList;
use std::marker::Model;

/// How many bytes a feeder holds: the longest frame, and 65,536 more.
pub const CAPACITY: usize = 2_162_712;

/// A `Feeder` as clauses see it: the bytes that were fed and not handed out, and the place in the stream of the
/// first of them. No value of this type is made.
pub struct FeederData {
    pub at: u64,
    pub rest: LinkedList<u8>,
}

/// What comes next in a feeder.
#[derive(Clone, Copy)]
pub enum Next<'a> {
    Frame(Frame<'a>),
    /// The rest is no whole frame yet.
    Need,
    /// The byte at `at` begins no request.
    BadMagic { at: u64 },
    /// The frame at `at` says a body above the limit.
    TooLong { at: u64 },
}

/// Divides a stream into frames. It holds 2,162,712 bytes, which `new` takes; no other call takes memory.
///
/// A caller that takes frames until `Need` before it feeds again has each byte moved once at most, however the
/// pieces are cut: bytes move only in `feed` and `read_from`, to the front of the buffer, and only those of a frame that
/// has begun and isn't whole, where they are no more than those handed out before them or there is no room behind
/// them. So a stream of short frames stays at the front of the buffer.
#[derive(Drop)]
pub struct Feeder {
    buffer: Vec<u8>,
    start: usize,
    end: usize,
    at: u64,
}

impl Model for Feeder {
    ghost use Rattle.std.specs.Prelude.{◌≡◌, ◌+◌, ◌-◌, ◌<◌, ◌≤◌, ◌^◌, length, take, drop};
    ghost use Rattle.mcbp_frame.specs.declared.feeder.FeederData.{FeederData};
    ghost use Rattle.mcbp_frame.specs.Header.{feeder_room};

    ghost Value = { FeederData };

    ghost view = { λ f. record {
      at = f.at;
      rest = take (f.end - f.start)
          (drop f.start f.buffer.items);
    } };

    ghost invariant = { λ f. (f.start ≤ f.end) × (f.end ≤ length f.buffer.items)
        × (length f.buffer.items ≡ feeder_room)
        × (f.at + (f.end - f.start) < 2 ^ 64) };
}

impl Feeder {
    ghost use Rattle.mcbp_frame.specs.contracts.feeder.Feeder.{the_row};

    /// An empty feeder at the beginning of a stream.
    pub fn new(alloc: Global) -> Result<Feeder, NoMemory>
        ensures rest { IfOk result (λ feeder. feeder.rest ≡ []) }
        ensures at { IfOk result (λ feeder. feeder.at ≡ 0) }
    {
        Ok(Feeder {
            buffer: vec![in alloc; 0u8; CAPACITY]?,
            start: 0,
            end: 0,
            at: 0,
        })
    }

    /// Takes the next piece of the stream, or as much of it as there is room for, and answers how many bytes it took.
    pub fn feed(&mut self, piece: &[u8]) -> usize
        requires { self.old.at + length self.old.rest + length piece.now < 2 ^ 64 }
        ensures count { result ≡ min (length piece.now) (feeder_room - length self.old.rest) }
        ensures rest { self.new.rest ≡ self.old.rest ++ take result piece.now }
        ensures at { self.new.at ≡ self.old.at }
    {
        let taken = piece.len().min(CAPACITY - (self.end - self.start));
        let (start, end) = make_way(&mut self.buffer, self.start, self.end, taken);
        write_at(&mut self.buffer, end, &piece[..taken]);
        self.start = start;
        self.end = end + taken;
        taken
    }

    /// Takes the next piece of the stream from a source, which reads at most `most` bytes straight into the feeder's
    /// room. Behind a partial frame there is always room for 65,536.
    pub fn read_from<R: Source>(&mut self, most: usize, source: &mut R) -> Got
        requires partial { IsPartial self.old.rest }
        requires some { 0 < most }
        requires piece { most ≤ 65536 }
        requires place { self.old.at + length self.old.rest + most < 2 ^ 64 }
        ensures feeds { Feeds result self.old.rest self.new.rest (R.left source.old)
            (R.left source.new) }
        ensures at { self.new.at ≡ self.old.at }
        ensures count { (n : ℕ) → result ≡ Got.Bytes n → (0 < n) × (n ≤ most) }
        ensures ended { R.has_ended source.new ≡ (R.has_ended source.old || is_end result) }
        ensures end { result ≡ Got.End → IsEmptied (R.left source.new) }
        ensures faults { R.faults source.new ≡ read_faults result (R.faults source.old) }
        ensures before { R.left_before source.new ≡ R.left source.old }
        ensures behind { R.ended_before source.new ≡ R.has_ended source.old }
    {
        let (start, end) = make_way(&mut self.buffer, self.start, self.end, most);
        let got = read_at(&mut self.buffer, end, most, source);
        self.start = start;
        self.end = end + count_of(got);
        got
    }

    /// Hands out the next frame, in constant time. At anything else it changes nothing, and answers the same again.
    pub fn next(&mut self) -> Next<'_>
        ensures gives { Gives self.old result }
        ensures* after { sem 𝓛 (Rests the_row self.entry
            (λ new. new ≡ after_next self.old result)) }
    {
        let next = look(&self.buffer[self.start..self.end], self.at);
        if let Next::Frame(frame) = next {
            let length = HEADER + frame.body.len();
            self.start += length;
            self.at = place_behind(self.at, length);
        }
        next
    }

    /// Drops what wasn't handed out, in constant time. What is fed next begins a new stream, after a fault too.
    pub fn clear(&mut self)
        ensures rest { self.new.rest ≡ [] }
        ensures at { self.new.at ≡ 0 }
    {
        self.start = 0;
        self.end = 0;
        self.at = 0;
    }

    /// How many bytes were fed and not handed out.
    pub fn rest(&self) -> usize
        ensures { result ≡ length self.now.rest }
    {
        self.end - self.start
    }

    /// The place in the stream of the first byte that wasn't handed out.
    pub fn at(&self) -> u64
        ensures { result ≡ self.now.at }
    {
        self.at
    }
}

// Whether the bytes from `start` to `end` go to the front before `taken` more come behind them: they do where that
// costs no more than was handed out, or there is no room behind them.
fn is_move_due(start: usize, end: usize, taken: usize) -> bool
    requires ordered { start ≤ end }
    requires within { end ≤ feeder_room }
    ensures room { result ≡ false → taken ≤ feeder_room - end }
{
    end - start <= start || taken > CAPACITY - end
}

// Makes way for `count` bytes behind those from `start` to `end`, and answers where these lie then.
fn make_way(buffer: &mut [u8], start: usize, end: usize, count: usize) -> (usize, usize)
    requires ordered { start ≤ end }
    requires within { end ≤ length buffer.old }
    requires whole { length buffer.old ≡ feeder_room }
    requires room { (end - start) + count ≤ feeder_room }
    ensures ordered { result.0 ≤ result.1 }
    ensures held { result.1 - result.0 ≡ end - start }
    ensures room { result.1 + count ≤ feeder_room }
    ensures same { take (result.1 - result.0) (drop result.0 buffer.new)
        ≡ take (end - start) (drop start buffer.old) }
{
    if is_move_due(start, end, count) {
        move_to_front(buffer, start, end);
        return (0, end - start);
    }
    (start, end)
}

// Moves the bytes from `start` to `end` to the front.
fn move_to_front(buffer: &mut [u8], start: usize, end: usize)
    requires ordered { start ≤ end }
    requires within { end ≤ length buffer.old }
    ensures { take (end - start) buffer.new ≡ take (end - start) (drop start buffer.old) }
{
    buffer.copy_within(start..end, 0);
}

// Writes the bytes from `at` on.
fn write_at(buffer: &mut [u8], at: usize, bytes: &[u8])
    requires { at + length bytes.now ≤ length buffer.old }
    ensures { buffer.new ≡ take at buffer.old ++ bytes.now
        ++ drop (at + length bytes.now) buffer.old }
{
    buffer[at..at + bytes.len()].copy_from_slice(bytes);
}

// How many bytes a read gave.
fn count_of(got: Got) -> usize
    ensures { result ≡ count_of got }
{
    match got {
        Got::Bytes(count) => count,
        Got::End | Got::Failed => 0,
    }
}

// Reads at most `most` bytes to the place `at` on.
fn read_at<R: Source>(buffer: &mut [u8], at: usize, most: usize, source: &mut R) -> Got
    requires some { 0 < most }
    requires within { at + most ≤ length buffer.old }
    ensures takes { TakesBytes (R.left source.old) (R.left source.new)
        (bytes_read result (drop at buffer.new)) }
    ensures kept { take at buffer.new ≡ take at buffer.old }
    ensures count { (n : ℕ) → result ≡ Got.Bytes n → (0 < n) × (n ≤ most) }
    ensures ended { R.has_ended source.new ≡ (R.has_ended source.old || is_end result) }
    ensures end { result ≡ Got.End → IsEmptied (R.left source.new) }
    ensures faults { R.faults source.new ≡ read_faults result (R.faults source.old) }
    ensures before { R.left_before source.new ≡ R.left source.old }
    ensures behind { R.ended_before source.new ≡ R.has_ended source.old }
{
    source.read(&mut buffer[at..at + most])
}

// The place of the first byte behind so many.
fn place_behind(at: u64, count: usize) -> u64
    requires { at + count < 2 ^ 64 }
    ensures { result ≡ at + count }
{
    at + count as u64
}

// What comes next where a feeder holds `rest`, whose first byte has the place `at`.
fn look(rest: &[u8], at: u64) -> Next<'_>
    ensures { Gives (record { at = at; rest = rest.now }) result }
{
    if rest.is_empty() {
        return Next::Need;
    }
    if !begins_request(rest) {
        return Next::BadMagic { at };
    }
    if rest.len() < HEADER {
        return Next::Need;
    }
    let body_len = body_len_of(rest);
    if body_len > MAX_BODY {
        return Next::TooLong { at };
    }
    let length = HEADER + body_len;
    if rest.len() < length {
        return Next::Need;
    }
    Next::Frame(frame_of(&rest[..length], at))
}

// Whether the first byte is that of a request.
fn begins_request(bytes: &[u8]) -> bool
    requires { 0 < length bytes.now }
    ensures yes { result ≡ true → slice_index bytes.now 0 ≡ request_magic }
    ensures no { result ≡ false → slice_index bytes.now 0 ≢ request_magic }
{
    bytes[0] == REQUEST
}

// The body length that a header says.
fn body_len_of(header: &[u8]) -> usize
    requires { HEADER ≤ length header.now }
    ensures { result ≡ body_length header.now }
{
    BigEndian::read_u32(&header[8..]) as usize
}

// The frame that stands in `bytes`.
fn frame_of(bytes: &[u8], at: u64) -> Frame<'_>
    requires { IsFrame bytes.now }
    ensures { frame_data result ≡ frame_at bytes.now at }
{
    Frame {
        opcode: bytes[1],
        key_len: BigEndian::read_u16(&bytes[2..]),
        extras_len: bytes[4],
        datatype: bytes[5],
        vbucket: BigEndian::read_u16(&bytes[6..]),
        opaque: BigEndian::read_u32(&bytes[12..]),
        cas: BigEndian::read_u64(&bytes[16..]),
        body: &bytes[HEADER..],
        at,
    }
}
