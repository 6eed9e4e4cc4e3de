// The traits over std's readers, writers and clock. None of these tells its bytes or its moments, so the clauses
// of the traits that speak of told ones are not repeated.
ghost use Rattle.std.specs.Prelude.{◌≡◌, ◌<◌, ◌≤◌, ◌^◌, ◌||◌, ℕ, true, false, length, take, IfSome, OnOk, OnErr};
ghost use Rattle.std.specs.Io.{ReadsAtMost, WritesAtMost};
ghost use Rattle.std.specs.Io.KnownBytes.{IsAtEnd, Consumes, ReadConsumes, WriteAppends, Appends as AppendsKnown};
ghost use Rattle.ep_model.specs.Limits.{IsMoment};
ghost use Rattle.ep_edge.specs.Edge.{bytes_read, is_end, offer, read_faults, write_faults};
ghost use Rattle.ep_edge.specs.Standard.{AppendsSome, after_got, after_put};

use crate::{Clock, Got, Put, Sink, Source};
use ep_model::limits::END_OF_MOMENTS;
use std::io::{ErrorKind, Read, Write};
use std::marker::Model;
use std::time::{SystemTime, UNIX_EPOCH};
use std::{io, rt};

/// How often a call is made that signals interrupt.
const TRIES: u32 = 1_000;

/// The last moment that a clock may give.
const LAST_MOMENT: u64 = END_OF_MOMENTS - 1;

/// A source over a reader. A read of no bytes is the end, after which the reader is not asked again. A read
/// that a signal interrupts is made again, up to 1,000 times; any other error is a failure.
#[derive(Drop)]
pub struct ReaderSource<R> {
    reader: R,
    ended: bool,
    /// Whether it had ended as the last read began.
    ended_before: bool,
    faults: u64,
}

impl<R> Model for ReaderSource<R> {
    ghost use Rattle.ep_edge.specs.declared.data.ReaderData.{ReaderData};

    ghost Value = { ReaderData R };

    ghost view = { λ s. record {
      reader = s.reader;
      ended = s.ended;
      ended_before = s.ended_before;
      faults = s.faults;
    } };
}

impl<R: Read + Drop> ReaderSource<R> {
    /// A source of the reader's bytes. It takes no memory.
    pub fn new(reader: R) -> ReaderSource<R>
        ensures { result
            ≡ record { reader = reader; ended = false; ended_before = false; faults = 0 } }
    {
        ReaderSource {
            reader,
            ended: false,
            ended_before: false,
            faults: 0,
        }
    }
}

impl<R: Read + Drop> Source for ReaderSource<R> {
    ghost use Rattle.std.specs.Prelude.{None};

    ghost left = { λ _. None };

    ghost has_ended = { λ s. s.ended };

    ghost faults = { λ s. s.faults };

    ghost left_before = { λ _. None };

    ghost ended_before = { λ s. s.ended_before };

    /// One read of the reader, unless signals interrupt it.
    fn read(&mut self, into: &mut [u8]) -> Got
        requires { 0 < length into.old }
        ensures count { (n : ℕ) → result ≡ Got.Bytes n → (0 < n) × (n ≤ length into.new) }
        ensures ended { self.new.ended ≡ (self.old.ended || is_end result) }
        ensures after_end { (n : ℕ) → self.old.ended ≡ true → result ≡ Got.Bytes n → ⊥ }
        ensures faults { self.new.faults ≡ read_faults result self.old.faults }
        ensures bytes { Consumes (R.remaining self.old.reader) (R.remaining self.new.reader)
            (bytes_read result into.new) }
        ensures at_end { self.old.ended ≡ false → result ≡ Got.End
            → IsAtEnd (R.remaining self.new.reader) }
        ensures behind { self.new.ended_before ≡ self.old.ended }
        ensures ends_for_good { self.old.ended ≡ true →
            (result ≡ Got.End) × (self.new ≡ record self.old { ended_before = true }) }
        ensures after { self.new ≡ after_got self.new.reader self.old result }
    {
        self.ended_before = self.ended;
        if self.ended {
            return Got::End;
        }
        match read_patiently(&mut self.reader, into) {
            Ok(0) => {
                self.ended = true;
                Got::End
            }
            Ok(count) => Got::Bytes(count),
            Err(_) => {
                self.faults = self.faults.saturating_add(1);
                Got::Failed
            }
        }
    }
}

/// A sink over a writer, which is flushed after each write. A write that a signal interrupts is made again, up
/// to 1,000 times; any other error, a flush that a signal interrupts, and a writer that takes no byte, are failures.
#[derive(Drop)]
pub struct WriterSink<W> {
    writer: W,
    faults: u64,
    /// How often it had failed as the last write began.
    faults_before: u64,
    /// How many bytes the last write was to write.
    offered: usize,
}

impl<W> Model for WriterSink<W> {
    ghost use Rattle.ep_edge.specs.declared.data.WriterData.{WriterData};

    ghost Value = { WriterData W };

    ghost view = { λ s. record {
      writer = s.writer;
      faults = s.faults;
      faults_before = s.faults_before;
      offered = s.offered;
    } };
}

impl<W: Write + Drop> WriterSink<W> {
    /// A sink that writes to the writer. It takes no memory.
    pub fn new(writer: W) -> WriterSink<W>
        ensures { result ≡ record { writer = writer; faults = 0; faults_before = 0; offered = 0 } }
    {
        WriterSink {
            writer,
            faults: 0,
            faults_before: 0,
            offered: 0,
        }
    }
}

impl<W: Write + Drop> Sink for WriterSink<W> {
    ghost use Rattle.std.specs.Prelude.{None};

    ghost held = { λ _. None };

    ghost faults = { λ s. s.faults };

    ghost last_offer = { λ s. offer None s.faults_before s.offered };

    /// As many writes of the writer as it needs to take the bytes, and a flush.
    fn write(&mut self, bytes: &[u8]) -> Put
        requires { 0 < length bytes.now }
        ensures faults { self.new.faults ≡ write_faults result self.old.faults }
        ensures offered { offer None self.new.faults_before self.new.offered
            ≡ offer None self.old.faults (length bytes.now) }
        ensures written { result ≡ Put.Done →
            AppendsKnown (W.contents self.old.writer) (W.contents self.new.writer) bytes.now }
        ensures not_written { result ≡ Put.Failed →
            AppendsSome (W.contents self.old.writer) (W.contents self.new.writer) bytes.now }
        ensures after { self.new ≡ after_put self.new.writer self.old (length bytes.now) result }
    {
        self.faults_before = self.faults;
        self.offered = bytes.len();
        match write_whole(&mut self.writer, bytes) {
            Ok(()) => Put::Done,
            Err(_) => {
                self.faults = self.faults.saturating_add(1);
                Put::Failed
            }
        }
    }
}

/// A clock over the system's. Where that can't be read or stands before 1970, the last moment is given again,
/// at first 0; a moment from the year 2116 on is given as the last one below 2^62. A clock that is set back is followed.
#[derive(Drop)]
pub struct SystemClock<C> {
    runtime: C,
    last: u64,
}

impl<C> Model for SystemClock<C> {
    ghost use Rattle.std.specs.Prelude.{◌<◌, ◌^◌};
    ghost use Rattle.ep_model.specs.Limits.{IsMoment};
    ghost use Rattle.ep_edge.specs.declared.data.SystemClockData.{SystemClockData};

    ghost Value = { SystemClockData };

    ghost view = { λ c. record { last = c.last } };

    ghost invariant = { λ c. IsMoment c.last };
}

impl<C: rt::Clock + Drop> SystemClock<C> {
    /// A clock that asks this runtime, which is held by value or as a reference.
    pub fn new(runtime: C) -> SystemClock<C>
        ensures { result ≡ record { last = 0 } }
    {
        SystemClock { runtime, last: 0 }
    }
}

impl<C: rt::Clock + Drop> Clock for SystemClock<C> {
    ghost use Rattle.std.specs.Prelude.{None};

    ghost moment = { λ _ _. None };

    /// One system call.
    fn now(&mut self) -> u64
        ensures bound { IsMoment result }
        ensures last { self.new.last ≡ result }
    {
        if let Some(moment) = system_moment(&self.runtime) {
            self.last = moment;
        }
        self.last
    }
}

/// Nanoseconds since 1970 by the system's clock, where it can be read and isn't set before then.
fn system_moment<C: rt::Clock>(runtime: &C) -> Option<u64>
    ensures { IfSome result IsMoment }
{
    let since_1970 = SystemTime::now(runtime)
        .ok()?
        .duration_since(UNIX_EPOCH)
        .ok()?;
    Some(since_1970.as_nanos().min(LAST_MOMENT as u128) as u64)
}

/// A read, made again where a signal interrupts it.
fn read_patiently<R: Read>(reader: &mut R, into: &mut [u8]) -> io::Result<usize>
    ensures bound { ReadsAtMost result into.new }
    ensures bytes { ReadConsumes (R.remaining reader.old) (R.remaining reader.new) result into.new }
{
    for _ in 1..TRIES {
        match reader.read(into) {
            Err(error) if error.kind() == ErrorKind::Interrupted => {}
            outcome => return outcome,
        }
    }
    reader.read(into)
}

/// A write, made again where a signal interrupts it.
fn write_patiently<W: Write>(writer: &mut W, bytes: &[u8]) -> io::Result<usize>
    ensures bound { WritesAtMost result bytes.now }
    ensures bytes { WriteAppends (W.contents writer.old) (W.contents writer.new) result bytes.now }
{
    for _ in 1..TRIES {
        match writer.write(bytes) {
            Err(error) if error.kind() == ErrorKind::Interrupted => {}
            outcome => return outcome,
        }
    }
    writer.write(bytes)
}

/// Writes all the bytes and flushes. After an error the writer may have taken some of them, from the first on.
fn write_whole<W: Write>(writer: &mut W, bytes: &[u8]) -> io::Result<()>
    ensures ok { OnOk result (AppendsKnown (W.contents writer.old) (W.contents writer.new)
        bytes.now) }
    ensures err { OnErr result (AppendsSome (W.contents writer.old) (W.contents writer.new)
        bytes.now) }
{
    let mut written = 0;
    while written < bytes.len() {
        let count = write_patiently(writer, &bytes[written..])?;
        if count == 0 {
            return Err(io::Error::from(ErrorKind::WriteZero));
        }
        written += count;
    }
    writer.flush()
}
