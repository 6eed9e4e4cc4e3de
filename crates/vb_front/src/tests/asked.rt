// Calls at the stage of a world that wait for the store or find no place.
ghost use Rattle.std.specs.Prelude.{◌≡◌, true};
ghost use Rattle.vb_front.specs.Opened.{IsOpened};

use super::passed::Passed;
use super::served::{opened, tried};
use super::{config, ticket};
use crate::{Part, Tried};
use ep_edge::OpenGate;
use ep_model::{Call, Config, Eviction, Out, Reply, StoreKind};
use std::alloc::Global;
use vb_world::World;

const GET: Call<'static> = Call::Get { key: b"k" };

const SET: Call<'static> = Call::Store {
    kind: StoreKind::Set,
    key: b"a",
    value: b"v",
    flags: 0,
    expiration: 0,
    cas: 0,
};

/// What a Get comes to, the same one twice again with its ticket, and a Set of another key, how often points of a gate were
/// passed, and how many events were noted.
fn waits_on(alloc: Global) -> Option<([Tried; 4], Passed, usize)> {
    let config = config(Eviction::Full, 16, 16);
    if config.fault().is_some() {
        return None;
    }
    let mut world = opened(alloc, &config)?;
    let Ok(mut value) = Out::new(alloc, 1_048_576) else {
        return None;
    };
    let mut gate = Passed::none();
    let first = tried(&mut world, &config, &GET, 0, None, &mut value, &mut gate)?;
    let Tried::Fetch(ticket) = first else {
        return None;
    };
    let again = tried(
        &mut world,
        &config,
        &GET,
        0,
        Some(ticket),
        &mut value,
        &mut gate,
    )?;
    let Tried::Fetch(ticket) = again else {
        return None;
    };
    let third = tried(
        &mut world,
        &config,
        &GET,
        0,
        Some(ticket),
        &mut value,
        &mut gate,
    )?;
    let set = tried(&mut world, &config, &SET, 0, None, &mut value, &mut gate)?;
    Some((
        [first, again, third, set],
        gate,
        world.into_history().count(),
    ))
}

#[test]
fn call_that_waits_on_keeps_its_place_and_notes_nothing(rt: HostRuntime) {
    let set = Reply {
        status: 0x00,
        cas: 1,
        flags: 0,
        uuid: 0,
        seqno: 1,
    };
    let waits = Tried::Fetch(ticket(1));
    let passed = Passed {
        in_stripe: 4,
        answered: 1,
        elsewhere: 0,
    };
    // it opened, the Get asked, and the Set was answered
    assert!(rt; waits_on(rt.alloc()) == Some(([waits, waits, waits, Tried::Done(set)], passed, 3)));
}

/// Whether sixty-four Gets in turn wait at a place each.
fn take_places(alloc: Global, world: &mut World<Part>, config: &Config) -> bool
    requires { IsOpened config.now world.old }
    ensures { result ≡ true → IsOpened config.now world.new }
{
    let Ok(mut value) = Out::new(alloc, 1_048_576) else {
        return false;
    };
    for number in 1..65u64 {
        let came = tried(world, config, &GET, 0, None, &mut value, &mut OpenGate);
        if came != Some(Tried::Fetch(ticket(number))) {
            return false;
        }
    }
    true
}

/// What a Get comes to once all places are taken, how often points of a gate were passed, and how many events were noted.
fn finds_no_place(alloc: Global) -> Option<(Tried, Passed, usize)> {
    let config = config(Eviction::Full, 16, 16);
    if config.fault().is_some() {
        return None;
    }
    let mut world = opened(alloc, &config)?;
    if !take_places(alloc, &mut world, &config) {
        return None;
    }
    let Ok(mut value) = Out::new(alloc, 1_048_576) else {
        return None;
    };
    let mut gate = Passed::none();
    let came = tried(&mut world, &config, &GET, 0, None, &mut value, &mut gate)?;
    Some((came, gate, world.into_history().count()))
}

#[test]
fn call_without_a_place_notes_nothing(rt: HostRuntime) {
    let full = Tried::FetchFull { stripe: 0 };
    let passed = Passed {
        in_stripe: 1,
        answered: 0,
        elsewhere: 0,
    };
    // it opened, and sixty-four Gets asked
    assert!(rt; finds_no_place(rt.alloc()) == Some((full, passed, 65)));
}
