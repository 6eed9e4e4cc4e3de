// Each kind of event is given back as it was noted, under its vBucket.
use super::*;
use ep_model::{Call, Cause, Event, NoMemory, Reply, StoreKind, Ticket};
use std::process::Abort;
use std::test::Fail;

const TICKET: Ticket = Ticket {
    stripe: 3,
    number: 70,
};

const REPLY: Reply = Reply {
    status: 1,
    cas: 2,
    flags: 3,
    uuid: 4,
    seqno: 5,
};

/// A Set of `key`.
fn set<'a>(key: &'a [u8], value: &'a [u8]) -> Call<'a> {
    Call::Store {
        kind: StoreKind::Add,
        key,
        value,
        flags: 6,
        expiration: 7,
        cas: 8,
    }
}

fn check_set(rt: &impl Abort, call: Call, want: (&[u8], &[u8])) {
    let Call::Store {
        kind: StoreKind::Add,
        key,
        value,
        flags: 6,
        expiration: 7,
        cas: 8,
    } = call
    else {
        panic!(rt; "no Add");
    };
    assert!(rt; key == want.0);
    assert!(rt; value == want.1);
}

/// Each kind of event once, on the vBuckets 1 and 1023 in turn.
fn noted(rt: &(impl Abort + AllocGlobal)) -> Result<History, NoMemory> {
    let mut history = History::new(rt.alloc());
    history.note(1, &Event::Opened)?;
    history.note(
        1023,
        &Event::Called {
            caller: 10,
            call: set(b"key", b"value"),
            now: 11,
            reply: REPLY,
            value: b"answer",
        },
    )?;
    history.note(
        1,
        &Event::Refused {
            caller: 12,
            call: set(b"other key", b""),
            now: 13,
            cause: Cause::Store(TICKET),
        },
    )?;
    history.note(
        1023,
        &Event::Expired {
            key: b"old",
            now: 14,
        },
    )?;
    history.note(1, &Event::Persisted { number: 15 })?;
    history.note(
        1023,
        &Event::Marked {
            stripe: 2,
            number: 16,
        },
    )?;
    history.note(
        1,
        &Event::Asked {
            ticket: TICKET,
            caller: 17,
            call: Call::Get { key: b"away" },
        },
    )?;
    history.note(
        1023,
        &Event::ReadFailed {
            ticket: TICKET,
            fault: 18,
        },
    )?;
    Ok(history)
}

#[test]
fn events_are_given_back(rt: HostRuntime) -> Result<(), Fail> {
    let history = noted(&rt).expect(&rt, "memory");
    assert_eq!(rt; history.count(), 8);
    for index in 0..8 {
        let (vb, event) = history.event(index);
        assert_eq!(rt; vb, if index % 2 == 0 { 1 } else { 1023 });
        match (index, event) {
            (0, Event::Opened) => {}
            (
                1,
                Event::Called {
                    caller: 10,
                    call,
                    now: 11,
                    reply,
                    value,
                },
            ) => {
                check_set(&rt, call, (b"key", b"value"));
                assert_eq!(rt; reply, REPLY);
                assert!(rt; value == b"answer".as_slice());
            }
            (
                2,
                Event::Refused {
                    caller: 12,
                    call,
                    now: 13,
                    cause: Cause::Store(ticket),
                },
            ) => {
                check_set(&rt, call, (b"other key", b""));
                assert_eq!(rt; ticket, TICKET);
            }
            (3, Event::Expired { key, now: 14 }) => assert!(rt; key == b"old".as_slice()),
            (4, Event::Persisted { number: 15 }) => {}
            (
                5,
                Event::Marked {
                    stripe: 2,
                    number: 16,
                },
            ) => {}
            (
                6,
                Event::Asked {
                    ticket,
                    caller: 17,
                    call: Call::Get { key },
                },
            ) => {
                assert_eq!(rt; ticket, TICKET);
                assert!(rt; key == b"away".as_slice());
            }
            (7, Event::ReadFailed { ticket, fault: 18 }) => assert_eq!(rt; ticket, TICKET),
            _ => panic!(rt; "another event at {index}"),
        }
    }
    Ok(())
}
