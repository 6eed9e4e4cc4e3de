ghost use Rattle.std.specs.Prelude.{◌≡◌, true};
ghost use Rattle.mcbp_frame.specs.Division.{IsPartial};

use super::*;
use ep_edge::{Got, MemorySource};
use ep_model::Out;
use std::alloc::Global;
use std::process::Abort;
use std::test::Fail;

// A Noop, and behind it a Set of the key `Hello` to the value `World`.
const STREAM: [u8; 66] = [
    0x80, 0x0a, 0x00, 0x00, 0x00, 0x00, 0x00, 0x00, 0x00, 0x00, 0x00, 0x00, //
    0xde, 0xad, 0xbe, 0xef, 0x00, 0x00, 0x00, 0x00, 0x00, 0x00, 0x00, 0x00, //
    0x80, 0x01, 0x00, 0x05, 0x08, 0x00, 0x00, 0x00, 0x00, 0x00, 0x00, 0x12, //
    0x00, 0x00, 0x00, 0x00, 0x00, 0x00, 0x00, 0x00, 0x00, 0x00, 0x00, 0x00, //
    0xde, 0xad, 0xbe, 0xef, 0x00, 0x00, 0x00, 0x00, 0x48, 0x65, 0x6c, 0x6c, //
    0x6f, 0x57, 0x6f, 0x72, 0x6c, 0x64,
];

// What one of the stream's frames says: its opcode, the lengths of its key and extras, its opaque, where its
// body lies in the stream, and its place.
type Expected = (u8, u16, u8, u32, (usize, usize), u64);

const EXPECTED: [Expected; 2] = [
    (0x0a, 0, 0, 0xdead_beef, (24, 24), 0),
    (0x01, 5, 8, 0, (48, 66), 24),
];

// Feeds a piece, and says how many of the stream's frames have come then. It checks each one.
fn frames_after(rt: &impl Abort, feeder: &mut Feeder, piece: &[u8], mut seen: usize) -> usize {
    assert!(rt; feeder.at() < 100);
    assert!(rt; feeder.rest() < 100);
    assert!(rt; piece.len() < 100);
    assert_eq!(rt; feeder.feed(piece), piece.len());
    for _ in 0..=EXPECTED.len() {
        assert!(rt; feeder.at() < 100);
        assert!(rt; feeder.rest() < 100);
        let Next::Frame(frame) = feeder.next() else {
            break;
        };
        assert!(rt; seen < EXPECTED.len());
        let (opcode, key_len, extras_len, opaque, (start, end), at) = EXPECTED[seen];
        assert_eq!(rt; frame.opcode, opcode);
        assert_eq!(rt; frame.key_len, key_len);
        assert_eq!(rt; frame.extras_len, extras_len);
        assert_eq!(rt; frame.opaque, opaque);
        assert!(rt; start <= end && end <= STREAM.len());
        assert_eq!(rt; frame.body, &STREAM[start..end]);
        assert_eq!(rt; frame.at, at);
        seen += 1;
    }
    seen
}

// Feeds the stream's first bytes as one piece, and the others in pieces of `size`.
fn check_cut(rt: &impl Abort, alloc: Global, first: usize, size: usize) -> Result<(), Fail> {
    assert!(rt; first <= STREAM.len());
    assert!(rt; size > 0);
    let mut feeder = Feeder::new(alloc)?;
    let mut seen = frames_after(rt, &mut feeder, &STREAM[..first], 0);
    for piece in STREAM[first..].chunks(size) {
        seen = frames_after(rt, &mut feeder, piece, seen);
    }
    assert_eq!(rt; seen, EXPECTED.len());
    Ok(())
}

#[test]
fn frames_do_not_depend_on_the_pieces(rt: HostRuntime) -> Result<(), Fail> {
    for first in 0..=STREAM.len() {
        check_cut(&rt, rt.alloc(), first, STREAM.len())?;
    }
    check_cut(&rt, rt.alloc(), 0, 1)
}

// Whether a feeder holds less than a frame.
fn needs_more(feeder: &mut Feeder) -> bool
    ensures { result ≡ true → IsPartial feeder.new.rest }
{
    match feeder.next() {
        Next::Need => true,
        Next::Frame(_) | Next::BadMagic { .. } | Next::TooLong { .. } => false,
    }
}

#[test]
fn a_source_reads_into_the_feeder(rt: HostRuntime) -> Result<(), Fail> {
    let alloc = rt.alloc();
    let stream = STREAM.to_vec(alloc)?;
    let mut source = MemorySource::new(stream, vec![in alloc; 40]?, Vec::new(alloc));
    let mut feeder = Feeder::new(alloc)?;
    let mut seen = 0;
    for (got, frames) in [(Got::Bytes(40), 1), (Got::Bytes(26), 2), (Got::End, 2)] {
        assert!(rt; needs_more(&mut feeder));
        assert!(rt; feeder.at() < 100);
        assert!(rt; feeder.rest() < 100);
        assert_eq!(rt; feeder.read_from(50, &mut source), got);
        seen = frames_after(&rt, &mut feeder, &[], seen);
        assert_eq!(rt; seen, frames);
    }
    Ok(())
}

#[test]
fn another_first_byte_is_refused_each_time(rt: HostRuntime) -> Result<(), Fail> {
    let mut feeder = Feeder::new(rt.alloc())?;
    assert_eq!(rt; feeder.feed(&[0x16]), 1);
    assert!(rt; matches!(feeder.next(), Next::BadMagic { at: 0 }));
    assert!(rt; matches!(feeder.next(), Next::BadMagic { at: 0 }));
    Ok(())
}

#[test]
fn a_cleared_feeder_begins_a_new_stream(rt: HostRuntime) -> Result<(), Fail> {
    let mut feeder = Feeder::new(rt.alloc())?;
    assert_eq!(rt; frames_after(&rt, &mut feeder, &STREAM[..40], 0), 1);
    feeder.clear();
    assert_eq!(rt; feeder.rest(), 0);
    assert_eq!(rt; frames_after(&rt, &mut feeder, &STREAM, 0), EXPECTED.len());
    feeder.clear();
    assert_eq!(rt; feeder.feed(&[0x16]), 1);
    assert!(rt; matches!(feeder.next(), Next::BadMagic { at: 0 }));
    feeder.clear();
    assert_eq!(rt; frames_after(&rt, &mut feeder, &STREAM, 0), EXPECTED.len());
    Ok(())
}

#[test]
fn a_body_has_a_limit(rt: HostRuntime) -> Result<(), Fail> {
    for (low, is_long) in [(0, false), (1, true)] {
        let mut header = [0; 24];
        header[0] = 0x80;
        header[9] = 0x20;
        header[11] = low;
        let mut feeder = Feeder::new(rt.alloc())?;
        assert_eq!(rt; feeder.feed(&header), 24);
        let next = feeder.next();
        assert_eq!(rt;
            matches!(next, Next::TooLong { at: 0 }),
            is_long,
            "at {low}"
        );
        assert_eq!(rt; matches!(next, Next::Need), !is_long, "at {low}");
    }
    Ok(())
}

#[test]
fn responses_are_written(rt: HostRuntime) -> Result<(), Fail> {
    let cas = 0x0de0_b6b3_a764_0000;
    let mut out = Out::new(rt.alloc(), 100)?;
    put_response(&mut out, 0x01, 0, 0, cas, 0, &[], &[], &[]);
    put_response(
        &mut out,
        0x00,
        0,
        0,
        cas,
        0,
        &[0xde, 0xad, 0xbe, 0xef],
        &[],
        b"World",
    );
    let expected = [
        0x81, 0x01, 0x00, 0x00, 0x00, 0x00, 0x00, 0x00, 0x00, 0x00, 0x00, 0x00, //
        0x00, 0x00, 0x00, 0x00, 0x0d, 0xe0, 0xb6, 0xb3, 0xa7, 0x64, 0x00, 0x00, //
        0x81, 0x00, 0x00, 0x00, 0x04, 0x00, 0x00, 0x00, 0x00, 0x00, 0x00, 0x09, //
        0x00, 0x00, 0x00, 0x00, 0x0d, 0xe0, 0xb6, 0xb3, 0xa7, 0x64, 0x00, 0x00, //
        0xde, 0xad, 0xbe, 0xef, 0x57, 0x6f, 0x72, 0x6c, 0x64,
    ];
    assert_eq!(rt; out.bytes(), expected.as_slice());
    Ok(())
}
