ghost use Rattle.std.specs.Prelude.{◌≤◌, IfOk};

use super::*;
use std::cell::Cell;
use std::io::{ErrorKind, Read, Write};
use std::process::Abort;
use std::test::Fail;
use std::time::Duration;
use std::{io, rt};

/// The bytes that a read gave.
fn given(got: Got, buffer: &[u8]) -> &[u8] {
    match got {
        Got::Bytes(count) if count <= buffer.len() => &buffer[..count],
        _ => &[],
    }
}

fn expect_reads<S: Source>(rt: &impl Abort, source: &mut S, wants: &[(Got, &[u8])]) {
    let mut buffer = [0; 4];
    for (want, bytes) in wants {
        let got = source.read(&mut buffer);
        assert!(rt; got == *want, "{got:?} for {want:?}");
        assert!(rt; given(got, &buffer) == *bytes, "{got:?}");
    }
}

fn expect_moments<C: Clock>(rt: &impl Abort, clock: &mut C, wants: &[u64]) {
    for want in wants {
        assert_eq!(rt; clock.now(), *want);
    }
}

#[test]
fn a_memory_source_gives_pieces_and_fails(rt: HostRuntime) -> Result<(), Fail> {
    let bytes = b"abcdefghi".to_vec(rt.alloc())?;
    let pieces = vec![in rt.alloc(); 3, 0, 2]?;
    let fails = vec![in rt.alloc(); 1, 6]?;
    let mut source = MemorySource::new(bytes, pieces, fails);
    let wants: [(Got, &[u8]); 8] = [
        (Got::Bytes(3), b"abc"),
        (Got::Failed, b""),
        (Got::Bytes(1), b"d"),
        (Got::Bytes(2), b"ef"),
        (Got::Bytes(3), b"ghi"),
        (Got::End, b""),
        (Got::Failed, b""),
        (Got::End, b""),
    ];
    expect_reads(&rt, &mut source, &wants);
    Ok(())
}

#[test]
fn a_memory_sink_fails_and_runs_out(rt: HostRuntime) -> Result<(), Fail> {
    let mut sink = MemorySink::new(rt.alloc(), 5, vec![in rt.alloc(); 1]?).expect(&rt, "memory");
    let writes: [(&[u8], Put, &[u8]); 5] = [
        (b"ab", Put::Done, b"ab"),
        (b"cd", Put::Failed, b"ab"),
        (b"cd", Put::Done, b"abcd"),
        (b"ef", Put::Failed, b"abcde"),
        (b"g", Put::Failed, b"abcde"),
    ];
    for (bytes, want, held) in writes {
        assert!(rt; !bytes.is_empty());
        let put = sink.write(bytes);
        assert_eq!(rt; put, want);
        assert!(rt; sink.bytes() == held);
    }
    Ok(())
}

#[test]
fn a_memory_clock_repeats_its_last_moment(rt: HostRuntime) -> Result<(), Fail> {
    let mut clock = MemoryClock::new(vec![in rt.alloc(); 7, 5]?);
    expect_moments(&rt, &mut clock, &[7, 5, 5, 5]);
    let mut stopped = MemoryClock::new(Vec::new(rt.alloc()));
    expect_moments(&rt, &mut stopped, &[0, 0]);
    Ok(())
}

#[test]
fn a_reader_source_reads_to_the_end(rt: HostRuntime) {
    let mut source = ReaderSource::new(b"abcdef".as_slice());
    let wants: [(Got, &[u8]); 4] = [
        (Got::Bytes(4), b"abcd"),
        (Got::Bytes(2), b"ef"),
        (Got::End, b""),
        (Got::End, b""),
    ];
    expect_reads(&rt, &mut source, &wants);
}

/// What a call of a troubled reader or writer does.
#[derive(Clone, Copy)]
enum Step {
    Interrupt,
    Fail,
    Move(usize),
}

/// Reads of `x`, and writes that keep what they take, as the steps say and then without an end or a limit. A flush
/// takes a step too, and the bytes held by then are flushed.
#[derive(Drop)]
struct Troubled<'a> {
    steps: &'a [Step],
    held: Vec<u8>,
    flushed: usize,
}

impl Troubled<'_> {
    fn next_count(&mut self, most: usize) -> io::Result<usize>
        ensures { IfOk result (λ count. count ≤ most) }
    {
        let Some((step, steps)) = self.steps.split_first() else {
            return Ok(most);
        };
        self.steps = steps;
        match *step {
            Step::Interrupt => Err(io::Error::from(ErrorKind::Interrupted)),
            Step::Fail => Err(io::Error::from(ErrorKind::Other)),
            Step::Move(count) => Ok(count.min(most)),
        }
    }
}

impl Read for Troubled<'_> {
    fn read(&mut self, buf: &mut [u8]) -> io::Result<usize> {
        let count = self.next_count(buf.len())?;
        buf[..count].fill(b'x');
        Ok(count)
    }
}

impl Write for Troubled<'_> {
    fn write(&mut self, buf: &[u8]) -> io::Result<usize> {
        let count = self.next_count(buf.len())?;
        self.held.extend_from_slice(&buf[..count])?;
        Ok(count)
    }

    fn flush(&mut self) -> io::Result<()> {
        self.next_count(0)?;
        self.flushed = self.held.len();
        Ok(())
    }
}

#[test]
fn a_reader_source_meets_trouble(rt: HostRuntime) {
    let steps = [
        Step::Interrupt,
        Step::Interrupt,
        Step::Move(2),
        Step::Fail,
        Step::Interrupt,
        Step::Interrupt,
        Step::Interrupt,
        Step::Move(1),
        Step::Interrupt,
        Step::Move(0),
    ];
    let held = Vec::new(rt.alloc());
    let mut source = ReaderSource::new(Troubled {
        steps: &steps,
        held,
        flushed: 0,
    });

    // After its end the reader would give bytes again.
    let wants: [(Got, &[u8]); 5] = [
        (Got::Bytes(2), b"xx"),
        (Got::Failed, b""),
        (Got::Bytes(1), b"x"),
        (Got::End, b""),
        (Got::End, b""),
    ];
    expect_reads(&rt, &mut source, &wants);
}

#[test]
fn a_read_is_made_a_thousand_times(rt: HostRuntime) {
    for (interruptions, got, bytes) in [
        (999, Got::Bytes(4), b"xxxx".as_slice()),
        (1_000, Got::Failed, b"".as_slice()),
    ] {
        let steps = [Step::Interrupt; 1_000];
        let mut source = ReaderSource::new(Troubled {
            steps: &steps[..interruptions],
            held: Vec::new(rt.alloc()),
            flushed: 0,
        });
        expect_reads(&rt, &mut source, &[(got, bytes), (Got::Bytes(4), b"xxxx")]);
    }
}

#[test]
fn an_interrupted_flush_is_a_fault(rt: HostRuntime) {
    let steps = [Step::Move(2), Step::Interrupt];
    let mut writer = Troubled {
        steps: &steps,
        held: Vec::new(rt.alloc()),
        flushed: 0,
    };
    let mut sink = WriterSink::new(&mut writer);
    assert_eq!(rt; sink.write(b"ab"), Put::Failed);
    assert_eq!(rt; sink.write(b"c"), Put::Done);
    drop(sink);
    assert!(rt; writer.held.as_slice() == b"abc".as_slice());
    assert_eq!(rt; writer.flushed, 3);
}

#[test]
fn a_writer_sink_goes_on_after_short_writes(rt: HostRuntime) {
    let steps = [
        Step::Move(2),
        Step::Interrupt,
        Step::Interrupt,
        Step::Move(1),
        Step::Interrupt,
        Step::Interrupt,
        Step::Interrupt,
        Step::Move(3),
        Step::Move(0),
        Step::Fail,
        Step::Move(1),
        Step::Move(0),
        Step::Move(1),
        Step::Fail,
    ];
    let held = Vec::new(rt.alloc());
    let mut writer = Troubled {
        steps: &steps,
        held,
        flushed: 0,
    };
    let mut sink = WriterSink::new(&mut writer);

    // The third is of a writer that takes no byte any more, and the fourth one whose flush fails.
    let writes: [(&[u8], Put); 5] = [
        (b"abcdef", Put::Done),
        (b"gh", Put::Failed),
        (b"ij", Put::Failed),
        (b"k", Put::Failed),
        (b"l", Put::Done),
    ];
    for (bytes, want) in writes {
        assert!(rt; !bytes.is_empty());
        assert_eq!(rt; sink.write(bytes), want);
    }
    drop(sink);
    assert!(rt; writer.held.as_slice() == b"abcdefikl".as_slice());
    assert_eq!(rt; writer.flushed, 9);
}

/// A system's clock that stands so many milliseconds after 1970 at each call, or can't be read. Behind the last of
/// these it can't be read.
#[derive(Drop)]
struct Moving<'a>(Cell<&'a [Option<u64>]>);

impl rt::Clock for Moving<'_> {
    fn monotonic(&self) -> io::Result<Duration> {
        self.since_1970()
    }

    fn since_1970(&self) -> io::Result<Duration> {
        let Some((milliseconds, later)) = self.0.get().split_first() else {
            return Err(io::Error::from(ErrorKind::Other));
        };
        self.0.set(later);
        match milliseconds {
            Some(milliseconds) => Ok(Duration::from_millis(*milliseconds)),
            None => Err(io::Error::from(ErrorKind::Other)),
        }
    }
}

#[test]
fn a_system_clock_counts_nanoseconds(rt: HostRuntime) {
    let milliseconds = [
        None,
        Some(5),
        None,
        Some(7),
        Some(6),
        Some(4_611_686_018_427),
        Some(5_000_000_000_000),
        None,
        Some(0),
    ];
    let mut clock = SystemClock::new(Moving(Cell::new(&milliseconds)));

    // Where it can't be read the last moment is given again, and a clock that is set back is followed.
    let moments = [
        0,
        5_000_000,
        5_000_000,
        7_000_000,
        6_000_000,
        4_611_686_018_427_000_000,
        4_611_686_018_427_387_903,
        4_611_686_018_427_387_903,
        0,
        0,
    ];
    expect_moments(&rt, &mut clock, &moments);
}

#[test]
fn the_standard_streams_and_the_clock_fit(rt: HostRuntime) {
    let _source = ReaderSource::new(rt.stdin());
    let _sink = WriterSink::new(rt.stdout());
    let start_of_2020 = 1_577_836_800_000_000_000;
    assert!(rt; SystemClock::new(rt).now() > start_of_2020);
}
