// Streams that are cut anywhere, sources and sinks that fail, and the history that a session leaves.
use super::*;
use ep_model::{Call, Event, Reply};

/// How many bytes a Noop, and a Set and a Get of Hello are.
const LENGTH: usize = 95;

#[test]
fn answers_do_not_depend_on_the_pieces(rt: HostRuntime) -> Result<(), Fail> {
    let alloc = rt.alloc();
    let input = bytes_of(alloc, &[NOOP, SET, GET])?;
    let answers = bytes_of(alloc, &[NOOP_ANSWER, SET_ANSWER, GET_ANSWER])?;
    assert_eq!(rt; input.len(), LENGTH);
    let mut cuts = vec![in alloc; vec![in alloc; 1; LENGTH]?]?;
    for first in 1..=LENGTH as u32 {
        cuts.push(vec![in alloc; first]?)?;
    }
    for pieces in cuts {
        let outcome = session(alloc, &input, pieces)?;
        assert_eq!(rt; outcome.end, End::Closed);
        assert_eq!(rt; outcome.written, answers);
        assert_eq!(rt; outcome.history.count(), 3);
    }
    Ok(())
}

#[test]
fn a_fault_keeps_the_answers_before_it(rt: HostRuntime) -> Result<(), Fail> {
    let alloc = rt.alloc();
    let noop = bytes_of(alloc, &[NOOP])?;
    let read = session_on(alloc, &["session"], &noop, Vec::new(alloc), &[1], &[])?;
    assert_eq!(rt; read.end, End::ReadFault);
    assert_eq!(rt; read.written, bytes_of(alloc, &[NOOP_ANSWER])?);
    let write = session_on(alloc, &["session"], &noop, Vec::new(alloc), &[], &[0])?;
    assert_eq!(rt; write.end, End::WriteFault);
    assert!(rt; write.written.is_empty());
    Ok(())
}

#[test]
fn each_read_and_each_write_may_fail(rt: HostRuntime) -> Result<(), Fail> {
    let alloc = rt.alloc();
    let input = bytes_of(alloc, &[MISS, NOOP])?;
    let first = bytes_of(alloc, &[MISS_ANSWER])?;
    let both = bytes_of(alloc, &[MISS_ANSWER, NOOP_ANSWER])?;

    // Each byte takes one read, and the end of input one more; each answer takes one write. The first frame is 25
    // bytes long, so the read that fails after it finds one answer written, and the last one both.
    for call in 0..=49 {
        let ones = vec![in alloc; 1; 49]?;
        let outcome = session_on(alloc, &["session"], &input, ones, &[call], &[])?;
        assert_eq!(rt; outcome.end, End::ReadFault, "read {call}");
        let written: &[u8] = match call {
            0..=24 => &[],
            25..=48 => first.as_slice(),
            _ => both.as_slice(),
        };
        assert!(rt; outcome.written.as_slice() == written, "read {call}");
    }
    for (call, written) in [(0, b"".as_slice()), (1, first.as_slice())] {
        let ones = vec![in alloc; 1; 49]?;
        let outcome = session_on(alloc, &["session"], &input, ones, &[], &[call])?;
        assert_eq!(rt; outcome.end, End::WriteFault, "write {call}");
        assert!(rt; outcome.written.as_slice() == written, "write {call}");
    }
    Ok(())
}

#[test]
fn the_history_gives_back_a_call(rt: HostRuntime) -> Result<(), Fail> {
    let alloc = rt.alloc();
    let outcome = session(alloc, &bytes_of(alloc, &[SET, NOOP, GET])?, Vec::new(alloc))?;
    assert_eq!(rt; outcome.history.count(), 3);
    let (
        0,
        Event::Called {
            caller,
            call: Call::Get { key },
            now,
            reply,
            value,
        },
    ) = outcome.history.event(2)
    else {
        panic!(rt; "no Get");
    };
    assert_eq!(rt; (caller, key, now), (0, b"Hello".as_slice(), MOMENT));
    let found = Reply {
        status: 0,
        cas: 0x0de0_b6b3_a764_0000,
        flags: 0xdead_beef,
        uuid: 0,
        seqno: 0,
    };
    assert_eq!(rt; reply, found);
    assert_eq!(rt; value, b"World".as_slice());
    Ok(())
}
