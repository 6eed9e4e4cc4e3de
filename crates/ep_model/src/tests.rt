// The plain map's answers, with their numbers written out.
ghost use Rattle.std.specs.Prelude.{◌<◌, ◌^◌};
ghost use Rattle.ep_model.specs.History.{call_data};
ghost use Rattle.ep_model.specs.Limits.{IsKey, IsValue, IsWithin};

mod bytes;
mod layout;

use crate::limits::MAX_VALUE;
use crate::{Call, NoMemory, Out, Plain, Reply, StoreKind, VbState};
use std::alloc::Global;
use std::process::Abort;
use std::test::Fail;

/// A moment in nanoseconds since 1970, and the CAS of the first mutation there.
const MOMENT: u64 = 1_000_000_000_000_000_000;

const CAS: u64 = 0x0de0_b6b3_a764_0000;

const SECOND: u64 = 1_000_000_000;

const FLAGS: u32 = 0xdead_beef;

fn reply(status: u16, cas: u64, flags: u32, seqno: u64) -> Reply {
    Reply {
        status,
        cas,
        flags,
        uuid: 0,
        seqno,
    }
}

/// The reply to a store.
fn store(
    alloc: Global,
    plain: &mut Plain,
    kind: StoreKind,
    key: &[u8],
    value: &[u8],
    expiration: u32,
    cas: u64,
) -> Result<Reply, NoMemory>
    requires key { IsKey key.now }
    requires value { IsValue value.now }
{
    let mut out = Out::new(alloc, MAX_VALUE)?;
    let call = Call::Store {
        kind,
        key,
        value,
        flags: FLAGS,
        expiration,
        cas,
    };
    plain.answer(&call, MOMENT, &mut out)
}

/// A call at the moment has this value and this reply.
fn expect(
    rt: &impl Abort,
    alloc: Global,
    plain: &mut Plain,
    call: Call,
    value: &[u8],
    wanted: Reply,
) -> Result<(), NoMemory>
    requires { IsWithin (call_data call) }
{
    let mut out = Out::new(alloc, MAX_VALUE)?;
    let given = plain.answer(&call, MOMENT, &mut out)?;
    assert_eq!(rt; given, wanted);
    assert_eq!(rt; out.bytes(), value);
    Ok(())
}

#[test]
fn answers_stores_and_gets(rt: HostRuntime) -> Result<(), Fail> {
    let alloc = rt.alloc();
    let mut plain = Plain::new(alloc);
    for (kind, key, cas, wanted) in [
        (
            StoreKind::Set,
            b"Hello".as_slice(),
            0,
            reply(0x00, CAS, 0, 1),
        ),
        (
            StoreKind::Set,
            b"Hello".as_slice(),
            0,
            reply(0x00, CAS + 1, 0, 2),
        ),
        (StoreKind::Set, b"Hello".as_slice(), 1, reply(0x02, 0, 0, 0)),
        (StoreKind::Set, b"x".as_slice(), 1, reply(0x01, 0, 0, 0)),
        (
            StoreKind::Set,
            b"Hello".as_slice(),
            CAS + 1,
            reply(0x00, CAS + 2, 0, 3),
        ),
        (StoreKind::Replace, b"x".as_slice(), 0, reply(0x01, 0, 0, 0)),
        (
            StoreKind::Replace,
            b"Hello".as_slice(),
            1,
            reply(0x02, 0, 0, 0),
        ),
        (StoreKind::Add, b"Hello".as_slice(), 0, reply(0x02, 0, 0, 0)),
        (
            StoreKind::Add,
            b"y".as_slice(),
            7,
            reply(0x00, CAS + 3, 0, 4),
        ),
    ] {
        assert!(rt; !key.is_empty() && key.len() <= 250);
        let given = store(alloc, &mut plain, kind, key, b"World", 0, cas)?;
        assert_eq!(rt; given, wanted);
    }
    let hello = Call::Get { key: b"Hello" };
    expect(
        &rt,
        alloc,
        &mut plain,
        hello,
        b"World",
        reply(0x00, CAS + 2, FLAGS, 0),
    )?;
    expect(
        &rt,
        alloc,
        &mut plain,
        Call::Get { key: b"x" },
        b"",
        reply(0x01, 0, 0, 0),
    )?;
    Ok(())
}

#[test]
fn joins_and_deletes(rt: HostRuntime) -> Result<(), Fail> {
    let alloc = rt.alloc();
    let mut plain = Plain::new(alloc);
    store(alloc, &mut plain, StoreKind::Set, b"Hello", b"World", 0, 0)?;
    for (front, key, cas, wanted) in [
        (false, b"x".as_slice(), 0, reply(0x05, 0, 0, 0)),
        (false, b"Hello".as_slice(), 1, reply(0x02, 0, 0, 0)),
        (false, b"Hello".as_slice(), CAS, reply(0x00, CAS + 1, 0, 2)),
        (true, b"Hello".as_slice(), 0, reply(0x00, CAS + 2, 0, 3)),
    ] {
        assert!(rt; !key.is_empty() && key.len() <= 250);
        let call = Call::Join {
            front,
            key,
            value: b"!",
            cas,
        };
        expect(&rt, alloc, &mut plain, call, b"", wanted)?;
    }
    let hello = Call::Get { key: b"Hello" };
    expect(
        &rt,
        alloc,
        &mut plain,
        hello,
        b"!World!",
        reply(0x00, CAS + 2, FLAGS, 0),
    )?;
    for (cas, wanted) in [
        (CAS, reply(0x02, 0, 0, 0)),
        (CAS + 2, reply(0x00, CAS + 3, 0, 4)),
        (0, reply(0x01, 0, 0, 0)),
    ] {
        let call = Call::Delete { key: b"Hello", cas };
        expect(&rt, alloc, &mut plain, call, b"", wanted)?;
    }
    expect(&rt, alloc, &mut plain, hello, b"", reply(0x01, 0, 0, 0))?;
    Ok(())
}

#[test]
fn touches_only_where_the_expiry_differs(rt: HostRuntime) -> Result<(), Fail> {
    let alloc = rt.alloc();
    let mut plain = Plain::new(alloc);
    store(alloc, &mut plain, StoreKind::Set, b"Hello", b"World", 0, 0)?;
    for (expiration, fetch, value, wanted) in [
        (0, false, b"".as_slice(), reply(0x00, CAS, 0, 0)),
        (0, true, b"World".as_slice(), reply(0x00, CAS, FLAGS, 0)),
        (9, true, b"World".as_slice(), reply(0x00, CAS + 1, FLAGS, 2)),
        (
            1_000_000_009,
            true,
            b"World".as_slice(),
            reply(0x00, CAS + 1, FLAGS, 0),
        ),
        (
            2_592_001,
            true,
            b"World".as_slice(),
            reply(0x00, CAS + 2, FLAGS, 3),
        ),
        (0, false, b"".as_slice(), reply(0x01, 0, 0, 0)),
    ] {
        let call = Call::Touch {
            key: b"Hello",
            expiration,
            fetch,
        };
        expect(&rt, alloc, &mut plain, call, value, wanted)?;
    }
    Ok(())
}

/// Increment or Decrement of `n`.
fn count(down: bool, delta: u64, expiration: u32) -> Call<'static>
    ensures { IsWithin (call_data result) }
{
    Call::Count {
        down,
        key: b"n",
        delta,
        initial: 10,
        expiration,
        cas: 0,
    }
}

#[test]
fn counts(rt: HostRuntime) -> Result<(), Fail> {
    let alloc = rt.alloc();
    let mut plain = Plain::new(alloc);
    let found = Call::Get { key: b"n" };
    for (expiration, value, wanted) in [
        (0xffff_ffff, b"".as_slice(), reply(0x01, 0, 0, 0)),
        (0, b"\0\0\0\0\0\0\0\x0a".as_slice(), reply(0x00, CAS, 0, 1)),
    ] {
        let call = count(false, 5, expiration);
        expect(&rt, alloc, &mut plain, call, value, wanted)?;
    }
    expect(&rt, alloc, &mut plain, found, b"10", reply(0x00, CAS, 0, 0))?;
    for (text, down, delta, value, left) in [
        (
            b"18446744073709551615".as_slice(),
            false,
            1,
            b"\0\0\0\0\0\0\0\0",
            b"0".as_slice(),
        ),
        (b"3", true, 5, b"\0\0\0\0\0\0\0\0", b"0"),
        (b"00300", true, 5, b"\0\0\0\0\0\0\x01\x27", b"295"),
    ] {
        let mut plain = Plain::new(alloc);
        assert!(rt; text.len() <= 20);
        store(alloc, &mut plain, StoreKind::Set, b"n", text, 0, 0)?;
        let call = count(down, delta, 0);
        expect(
            &rt,
            alloc,
            &mut plain,
            call,
            value,
            reply(0x00, CAS + 1, 0, 2),
        )?;
        expect(
            &rt,
            alloc,
            &mut plain,
            found,
            left,
            reply(0x00, CAS + 1, FLAGS, 0),
        )?;
    }
    Ok(())
}

#[test]
fn counts_on_numbers_alone(rt: HostRuntime) -> Result<(), Fail> {
    let alloc = rt.alloc();
    for text in [
        b"abc".as_slice(),
        b"",
        b"+1",
        b"18446744073709551616",
        b"000000000000000000001",
    ] {
        let mut plain = Plain::new(alloc);
        assert!(rt; text.len() <= 21);
        store(alloc, &mut plain, StoreKind::Set, b"n", text, 0, 0)?;
        let call = count(false, 1, 0);
        expect(&rt, alloc, &mut plain, call, b"", reply(0x06, 0, 0, 0))?;
    }
    Ok(())
}

#[test]
fn only_an_active_vbucket_has_keys(rt: HostRuntime) -> Result<(), Fail> {
    let alloc = rt.alloc();
    let mut plain = Plain::new(alloc);
    store(alloc, &mut plain, StoreKind::Set, b"Hello", b"World", 0, 0)?;
    let hello = Call::Get { key: b"Hello" };
    let done = reply(0x00, 0, 0, 0);
    for (state, code, value, wanted) in [
        (
            VbState::Replica,
            b"\0\0\0\x02",
            b"".as_slice(),
            reply(0x07, 0, 0, 0),
        ),
        (
            VbState::Pending,
            b"\0\0\0\x03",
            b"".as_slice(),
            reply(0x07, 0, 0, 0),
        ),
        (
            VbState::Dead,
            b"\0\0\0\x04",
            b"".as_slice(),
            reply(0x07, 0, 0, 0),
        ),
        (
            VbState::Active,
            b"\0\0\0\x01",
            b"World".as_slice(),
            reply(0x00, CAS, FLAGS, 0),
        ),
    ] {
        expect(&rt, alloc, &mut plain, Call::SetState { state }, b"", done)?;
        expect(&rt, alloc, &mut plain, Call::GetState, code, done)?;
        expect(&rt, alloc, &mut plain, hello, value, wanted)?;
    }
    let numbers = b"\0\0\0\0\0\0\0\0\0\0\0\0\0\0\0\0\0\0\0\0\0\0\0\0\0\0\x01";
    expect(
        &rt,
        alloc,
        &mut plain,
        Call::Observe { uuid: 0 },
        numbers,
        done,
    )?;
    expect(
        &rt,
        alloc,
        &mut plain,
        Call::Observe { uuid: 1 },
        b"",
        reply(0x01, 0, 0, 0),
    )?;
    expect(&rt, alloc, &mut plain, Call::Failovers, b"", done)?;
    Ok(())
}

#[test]
fn documents_expire(rt: HostRuntime) -> Result<(), Fail> {
    let alloc = rt.alloc();
    for (expiration, second, status) in [
        (0, 4_000_000_000, 0x00),
        (100, 1_000_000_099, 0x00),
        (100, 1_000_000_100, 0x01),
        (2_592_000, 1_002_591_999, 0x00),
        (2_592_000, 1_002_592_000, 0x01),
        (2_592_001, 1_000_000_000, 0x01),
    ] {
        let mut plain = Plain::new(alloc);
        store(
            alloc,
            &mut plain,
            StoreKind::Set,
            b"Hello",
            b"World",
            expiration,
            0,
        )?;
        let mut out = Out::new(alloc, MAX_VALUE)?;
        assert!(rt; second <= 4_000_000_000);
        let given = plain.answer(&Call::Get { key: b"Hello" }, second * SECOND, &mut out)?;
        assert_eq!(rt; given.status, status, "{expiration} at {second}");
    }
    Ok(())
}
