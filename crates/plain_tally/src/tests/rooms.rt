// Whether there is room for calls, with statuses written out, and what calls put.
ghost use Rattle.std.specs.Prelude.{◌<◌};
ghost use Rattle.ep_model.specs.Limits.{IsKey};

use crate::{PlainCheckpoints, PlainWorld};
use ep_model::{Call, Cause, Config, Event, Eviction, NoMemory, Reply, StoreKind, rules, status};
use std::alloc::Global;
use std::process::Abort;
use std::test::Fail;

/// A moment in nanoseconds since 1970, and the CAS of the first mutation there.
const MOMENT: u64 = 1_000_000_000_000_000_000;

const CAS: u64 = 0x0de0_b6b3_a764_0000;

const A: &[u8] = b"a";

const B: &[u8] = b"b";

const C: &[u8] = b"c";

/// One stripe of so many blocks, and checkpoints of so many.
fn layout(blocks: u32, ckpt_blocks: u32) -> Config
    ensures { 0 < result.stripes }
{
    Config {
        vbuckets: 1,
        stripes: 1,
        blocks,
        ckpt_blocks,
        ckpt_max: 500,
        eviction: Eviction::Value,
        early: false,
    }
}

/// The status of a Set of a value of so many bytes, which has its effect where there is room for it. Nothing is stored.
fn set(
    rt: &impl Abort,
    alloc: Global,
    config: &Config,
    world: &mut PlainWorld,
    checkpoints: &mut PlainCheckpoints,
    key: &[u8],
    len: usize,
) -> Result<u16, NoMemory>
    requires { IsKey key.now }
{
    let value = vec![in alloc; 0u8; len]?;
    assert!(rt; value.len() <= 1_048_576);
    assert!(rt; world.high() < 1000);
    assert!(rt; world.maxcas() < 1 << 62);
    assert!(rt; checkpoints.id() < 1000);
    let kind = StoreKind::Set;
    let call = Call::Store {
        kind,
        key,
        value: &value,
        flags: 0,
        expiration: 0,
        cas: 0,
    };
    let puts = world.store_puts(alloc, kind, key, &value, 0, 0, 0, MOMENT)?;
    if world.is_short(config, 0, checkpoints, key, &call, MOMENT, puts.as_ref()) {
        return Ok(Cause::Quota.status());
    }
    let Some(item) = puts else {
        let refused = rules::size_refusal(world.fit(), key.len(), value.len());
        return Ok(refused.unwrap_or(status::SUCCESS));
    };
    checkpoints.queue(config.ckpt_max, item.copy(alloc)?)?;
    world.put(item)?;
    Ok(status::SUCCESS)
}

// A stripe of 16 blocks: 14 of a leave no room for 3 of b, and 15 in their place leave one. A document of 17 fits
// nowhere, so that it isn't refused for now.
#[test]
fn a_stripe_has_no_room(rt: HostRuntime) -> Result<(), Fail> {
    let alloc = rt.alloc();
    let config = layout(16, 64);
    let mut world = PlainWorld::new(alloc, &config);
    let mut checkpoints = PlainCheckpoints::new(alloc);
    for (key, len, wanted) in [
        (A, 1664, 0x00),
        (B, 256, 0x86),
        (A, 1792, 0x00),
        (C, 1921, 0x03),
        (C, 0, 0x00),
    ] {
        let given = set(&rt, alloc, &config, &mut world, &mut checkpoints, key, len)?;
        assert_eq!(rt; given, wanted);
    }
    Ok(())
}

// Checkpoints of 16 blocks: 15 of a leave no room for 3 of b. A Get of a wants its 15 blocks in memory, which are there.
#[test]
fn checkpoints_have_no_room(rt: HostRuntime) -> Result<(), Fail> {
    let alloc = rt.alloc();
    let config = layout(64, 16);
    let mut world = PlainWorld::new(alloc, &config);
    let mut checkpoints = PlainCheckpoints::new(alloc);
    for (key, len, wanted) in [(A, 1792, 0x00), (B, 256, 0x86)] {
        let given = set(&rt, alloc, &config, &mut world, &mut checkpoints, key, len)?;
        assert_eq!(rt; given, wanted);
    }
    let call = Call::Get { key: A };
    let puts = world.get_puts(A, MOMENT);
    assert_eq!(rt; world.need(A, &call, MOMENT, puts), 15);
    assert!(rt; !world.is_short(&config, 0, &checkpoints, A, &call, MOMENT, puts));
    let found = world.get(A);
    assert!(rt; found.is_some());
    if let Some(item) = found {
        assert_eq!(rt; item.value.len(), 1792);
        assert_eq!(rt; item.cas, CAS);
    }
    Ok(())
}

/// All mutations up to a number are stored.
fn store(
    rt: &impl Abort,
    config: &Config,
    world: &mut PlainWorld,
    checkpoints: &mut PlainCheckpoints,
    number: u64,
) -> Result<(), NoMemory> {
    assert!(rt; checkpoints.id() < 1000);
    checkpoints.follow(config.ckpt_max, world, &Event::Persisted { number }, None)?;
    world.persist(number);
    Ok(())
}

// Checkpoints of 16 blocks, 15 of which a takes, have room for 3 of b once a is stored, and the next checkpoint is open.
#[test]
fn what_is_stored_makes_room(rt: HostRuntime) -> Result<(), Fail> {
    let alloc = rt.alloc();
    let config = layout(64, 16);
    let mut world = PlainWorld::new(alloc, &config);
    let mut checkpoints = PlainCheckpoints::new(alloc);
    assert_eq!(rt;
        set(&rt, alloc, &config, &mut world, &mut checkpoints, A, 1792)?,
        0x00
    );
    assert_eq!(rt;
        set(&rt, alloc, &config, &mut world, &mut checkpoints, B, 256)?,
        0x86
    );
    store(&rt, &config, &mut world, &mut checkpoints, 1)?;
    assert_eq!(rt; checkpoints.id(), 2);
    assert_eq!(rt;
        set(&rt, alloc, &config, &mut world, &mut checkpoints, B, 256)?,
        0x00
    );
    Ok(())
}

// Under full eviction a Delete needs the old document, under value eviction only the tombstone that it puts. A Replace by what is
// too large needs nothing.
#[test]
fn an_eviction_says_what_a_delete_needs(rt: HostRuntime) -> Result<(), Fail> {
    let alloc = rt.alloc();
    for (eviction, need) in [(Eviction::Full, 15), (Eviction::Value, 1)] {
        let config = Config {
            eviction,
            ..layout(64, 64)
        };
        let mut world = PlainWorld::new(alloc, &config);
        let mut checkpoints = PlainCheckpoints::new(alloc);
        let given = set(&rt, alloc, &config, &mut world, &mut checkpoints, A, 1792)?;
        assert_eq!(rt; given, 0x00);
        assert!(rt; world.high() < 1000);
        assert!(rt; world.maxcas() < 1 << 62);
        let puts = world.delete_puts(alloc, A, 0, MOMENT)?;
        let call = Call::Delete { key: A, cas: 0 };
        assert_eq!(rt; world.need(A, &call, MOMENT, puts.as_ref()), need);
        let value = vec![in alloc; 0u8; 8192]?;
        assert!(rt; value.len() <= 1_048_576);
        let kind = StoreKind::Replace;
        let puts = world.store_puts(alloc, kind, A, &value, 0, 0, 0, MOMENT)?;
        let call = Call::Store {
            kind,
            key: A,
            value: &value,
            flags: 0,
            expiration: 0,
            cas: 0,
        };
        assert_eq!(rt; world.need(A, &call, MOMENT, puts.as_ref()), 0);
    }
    Ok(())
}

// A stripe of 16 blocks is full with 14 of a and 2 of b. A Get of b needs those 2 and has them, and a Set of what is too large
// needs nothing, so that neither is refused for now.
#[test]
fn a_full_stripe_has_room_for_what_it_holds(rt: HostRuntime) -> Result<(), Fail> {
    let alloc = rt.alloc();
    let config = layout(16, 64);
    let mut world = PlainWorld::new(alloc, &config);
    let mut checkpoints = PlainCheckpoints::new(alloc);
    for (key, len) in [(B, 128), (A, 1664)] {
        let given = set(&rt, alloc, &config, &mut world, &mut checkpoints, key, len)?;
        assert_eq!(rt; given, 0x00);
    }
    assert_eq!(rt;
        set(&rt, alloc, &config, &mut world, &mut checkpoints, C, 1921)?,
        0x03
    );
    let get = Call::Get { key: B };
    let puts = world.get_puts(B, MOMENT);
    assert_eq!(rt; world.need(B, &get, MOMENT, puts), 2);
    assert!(rt; !world.is_short(&config, 0, &checkpoints, B, &get, MOMENT, puts));
    Ok(())
}

// A tombstone pins its key's block until it is marked, and then nothing, where a document goes on to pin its key's.
#[test]
fn a_tombstone_is_pinned_until_it_is_stored(rt: HostRuntime) -> Result<(), Fail> {
    let alloc = rt.alloc();
    let config = layout(64, 64);
    let mut world = PlainWorld::new(alloc, &config);
    let mut checkpoints = PlainCheckpoints::new(alloc);
    let given = set(&rt, alloc, &config, &mut world, &mut checkpoints, A, 1792)?;
    assert_eq!(rt; given, 0x00);
    assert_eq!(rt; world.pinned(0, B), 15);
    assert_eq!(rt; world.pinned(1, B), 1);
    assert!(rt; world.high() < 1000);
    assert!(rt; world.maxcas() < 1 << 62);
    let puts = world.delete_puts(alloc, A, 0, MOMENT)?;
    let call = Call::Delete { key: A, cas: 0 };
    assert_eq!(rt; world.need(A, &call, MOMENT, puts.as_ref()), 1);
    assert!(rt; puts.is_some());
    if let Some(item) = puts {
        assert!(rt; item.deleted);
        world.put(item)?;
    }
    assert_eq!(rt; world.pinned(1, B), 1);
    assert_eq!(rt; world.pinned(2, B), 0);
    Ok(())
}

// Where documents aren't known a call put what its reply says: a document of the next numbers, or nothing.
#[test]
fn replies_tell_what_was_put(rt: HostRuntime) -> Result<(), Fail> {
    let alloc = rt.alloc();
    let world = PlainWorld::new(alloc, &layout(16, 16));
    let mut reply = Reply::success();
    assert!(rt; world.high() < 1000);
    assert!(rt; world.maxcas() < 1 << 62);
    let call = Call::Delete { key: A, cas: 0 };
    assert!(rt; world.seen_puts(alloc, &call, MOMENT, &reply)?.is_none());
    reply.seqno = 1;
    let seen = world.seen_puts(alloc, &call, MOMENT, &reply)?;
    assert!(rt; seen.is_some());
    if let Some(item) = seen {
        assert_eq!(rt; item.key.as_slice(), A);
        assert_eq!(rt; item.value.len(), 0);
        assert_eq!(rt; (item.cas, item.seqno, item.deleted), (CAS, 1, false));
    }
    let call = Call::Get { key: A };
    assert!(rt; world.seen_puts(alloc, &call, MOMENT, &reply)?.is_none());
    Ok(())
}
