// Reads and writes on a stripe and a queue, with their answers written out.
ghost use Rattle.ep_model.specs.Limits.{IsKey, IsValue};

use crate::data::{Outcome, Step};
use crate::node::Residency;
use crate::queue::FlatQueue;
use crate::stripe::FlatStripe;
use crate::write::write;
use ep_model::limits::MAX_VALUE;
use ep_model::{Cause, NoMemory, Out, Reply, Ticket};
use std::alloc::Global;
use std::process::Abort;
use std::test::Fail;

/// A moment in nanoseconds since 1970, and the CAS of the first mutation there.
const MOMENT: u64 = 1_000_000_000_000_000_000;

const CAS: u64 = 0x0de0_b6b3_a764_0000;

const FLAGS: u32 = 0xdead_beef;

fn done(status: u16, cas: u64, flags: u32, seqno: u64) -> Step {
    Step::Done(Reply {
        status,
        cas,
        flags,
        uuid: 0,
        seqno,
    })
}

fn ticket(number: u64) -> Ticket {
    Ticket { stripe: 3, number }
}

/// A Set of a document that may take two blocks.
fn set(
    alloc: Global,
    stripe: &mut FlatStripe,
    queue: &mut FlatQueue,
    key: &[u8],
    value: &[u8],
    cas: u64,
) -> Result<Step, NoMemory>
    requires key { IsKey key.now }
    requires value { IsValue value.now }
{
    write(
        alloc, stripe, queue, 2, None, key, value, FLAGS, 0, cas, MOMENT,
    )
}

/// A Get comes to this, and shows this value.
fn expect(
    rt: &impl Abort,
    alloc: Global,
    stripe: &mut FlatStripe,
    prior: Option<Ticket>,
    wanted: Step,
    value: &[u8],
) -> Result<(), NoMemory> {
    let mut out = Out::new(alloc, MAX_VALUE)?;
    let step = stripe.read(alloc, prior, b"Hello", MOMENT, &mut out)?;
    assert_eq!(rt; step, wanted);
    assert_eq!(rt; out.bytes(), value);
    Ok(())
}

/// Puts the value back that was ejected.
fn put_back(rt: &impl Abort, stripe: &mut FlatStripe, value: Vec<u8>) {
    let Residency::Ejected(meta) = stripe.find(b"Hello") else {
        panic!(rt; "the value isn't away");
    };
    assert!(rt; value.len() <= MAX_VALUE && meta.len as usize == value.len());
    stripe.restore(b"Hello", meta, value);
}

#[test]
fn a_set_is_read_back(rt: HostRuntime) -> Result<(), Fail> {
    let alloc = rt.alloc();
    let mut stripe = FlatStripe::new(alloc, 3);
    let mut queue = FlatQueue::new(alloc);
    let warming = set(alloc, &mut stripe, &mut queue, b"Hello", b"World", 0)?;
    assert_eq!(rt; warming, Step::Refused(Cause::Warming));
    expect(
        &rt,
        alloc,
        &mut stripe,
        None,
        Step::Refused(Cause::Warming),
        b"",
    )?;
    stripe.open();
    queue.open();
    expect(&rt, alloc, &mut stripe, None, done(0x01, 0, 0, 0), b"")?;
    for (cas, wanted) in [
        (1, done(0x01, 0, 0, 0)),
        (0, done(0x00, CAS, 0, 1)),
        (1, done(0x02, 0, 0, 0)),
        (CAS, done(0x00, CAS + 1, 0, 2)),
    ] {
        let step = set(alloc, &mut stripe, &mut queue, b"Hello", b"World", cas)?;
        assert_eq!(rt; step, wanted);
    }
    expect(
        &rt,
        alloc,
        &mut stripe,
        None,
        done(0x00, CAS + 1, FLAGS, 0),
        b"World",
    )?;
    let long = set(alloc, &mut stripe, &mut queue, b"x", &[7; 129], 0)?;
    assert_eq!(rt; long, done(0x03, 0, 0, 0));
    assert_eq!(rt;
        (queue.count(), queue.high(), queue.maxcas()),
        (2, 2, CAS + 1)
    );
    queue.set_persisted(1);
    assert_eq!(rt; (queue.count(), queue.persisted()), (1, 1));
    assert!(rt; queue.count() > 0);
    let item = queue.item(0);
    assert_eq!(rt; item.key.as_slice(), b"Hello".as_slice());
    assert_eq!(rt; item.document.value.as_slice(), b"World".as_slice());
    assert_eq!(rt; item.document.meta.seqno, 2);
    Ok(())
}

/// A stripe and a queue with one document, whose value was ejected.
fn with_ejected(rt: &impl Abort, alloc: Global) -> Result<(FlatStripe, FlatQueue), NoMemory> {
    let mut stripe = FlatStripe::new(alloc, 3);
    let mut queue = FlatQueue::new(alloc);
    stripe.open();
    queue.open();
    set(alloc, &mut stripe, &mut queue, b"Hello", b"World", 0)?;
    assert_eq!(rt; stripe.page(), (2, 0));
    stripe.raise(1);
    assert_eq!(rt; stripe.marked(), 1);
    assert_eq!(rt; stripe.page(), (1, 1));
    Ok((stripe, queue))
}

#[test]
fn an_ejected_value_is_asked_for_and_put_back(rt: HostRuntime) -> Result<(), Fail> {
    let alloc = rt.alloc();
    let (mut stripe, _queue) = with_ejected(&rt, alloc)?;
    expect(&rt, alloc, &mut stripe, None, Step::Fetch(ticket(1)), b"")?;
    let prior = Some(ticket(1));
    expect(&rt, alloc, &mut stripe, prior, Step::Fetch(ticket(1)), b"")?;
    let oldest = stripe.oldest().map(|place| place.number);
    assert_eq!(rt; oldest, Some(1));
    put_back(&rt, &mut stripe, b"World".to_vec(alloc)?);
    stripe.settle(1, Outcome::Merged);
    assert_eq!(rt; stripe.outcome(1), Some(Outcome::Merged));
    assert!(rt; stripe.oldest().is_none());
    expect(
        &rt,
        alloc,
        &mut stripe,
        prior,
        done(0x00, CAS, FLAGS, 0),
        b"World",
    )?;
    assert_eq!(rt; stripe.outcome(1), None);
    Ok(())
}

#[test]
fn a_set_forgets_the_read(rt: HostRuntime) -> Result<(), Fail> {
    let alloc = rt.alloc();
    let (mut stripe, mut queue) = with_ejected(&rt, alloc)?;
    expect(&rt, alloc, &mut stripe, None, Step::Fetch(ticket(1)), b"")?;
    let step = set(alloc, &mut stripe, &mut queue, b"Hello", b"again", CAS)?;
    assert_eq!(rt; step, done(0x00, CAS + 1, 0, 2));
    assert_eq!(rt; stripe.outcome(1), None);
    let prior = Some(ticket(1));
    expect(
        &rt,
        alloc,
        &mut stripe,
        prior,
        done(0x00, CAS + 1, FLAGS, 0),
        b"again",
    )?;
    Ok(())
}

#[test]
fn reads_fail_and_fill_the_stripe(rt: HostRuntime) -> Result<(), Fail> {
    let alloc = rt.alloc();
    let (mut stripe, _queue) = with_ejected(&rt, alloc)?;
    for (number, outcome, wanted) in [
        (
            1,
            Outcome::Failed(9),
            Step::Refused(Cause::Store(ticket(1))),
        ),
        (
            2,
            Outcome::NoMemory,
            Step::Refused(Cause::Memory(ticket(2))),
        ),
        (3, Outcome::Absent, Step::Fetch(ticket(4))),
    ] {
        expect(
            &rt,
            alloc,
            &mut stripe,
            None,
            Step::Fetch(ticket(number)),
            b"",
        )?;
        stripe.settle(number, outcome);
        expect(&rt, alloc, &mut stripe, Some(ticket(number)), wanted, b"")?;
    }
    for number in 5..68 {
        expect(
            &rt,
            alloc,
            &mut stripe,
            None,
            Step::Fetch(ticket(number)),
            b"",
        )?;
    }
    expect(&rt, alloc, &mut stripe, None, Step::FetchFull, b"")?;
    stripe.settle(9, Outcome::Merged);
    expect(
        &rt,
        alloc,
        &mut stripe,
        Some(ticket(9)),
        Step::Fetch(ticket(68)),
        b"",
    )?;
    expect(&rt, alloc, &mut stripe, None, Step::FetchFull, b"")?;
    Ok(())
}
