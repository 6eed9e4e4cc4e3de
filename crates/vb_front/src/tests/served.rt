// Calls of the caller 7 on a vBucket that opened in a world, and what the store's side does between them.
ghost use Rattle.std.specs.Prelude.{◌≡◌, ◌+◌, ◌≤◌, ℕ, true, length, Some, None, IsSome, IfSome};
ghost use Rattle.std.specs.List.{AllByRecursion};
ghost use Rattle.ep_model.specs.Config.{config_fault};
ghost use Rattle.ep_model.specs.declared.data.CallData.{CallData};
ghost use Rattle.ep_model.specs.declared.event.Ticket.{Ticket};
ghost use Rattle.ep_model.specs.History.{call_data};
ghost use Rattle.ep_model.specs.Legal.{HasAsked, IsNoFault};
ghost use Rattle.ep_model.specs.Limits.{IsKey, IsMoment, IsValue, IsWithin, max_value};
ghost use Rattle.vb_world.specs.World.{front_in};
ghost use Rattle.vb_front.specs.Opened.{FaultsAreWithin, IsLater, IsOpened};
ghost use Rattle.hold_stage.specs.Priors.{PriorsStand, PriorStands};
ghost use Rattle.vb_front.specs.Tries.{kind_of};
ghost use Rattle.vb_front.specs.declared.at_stage.Kind.TheVariants.{Change};
ghost use Rattle.vb_front.specs.declared.at_stage.Tried.TheVariants.{Fetch};

use super::opened::{Told, eject_at, fail_at, look_at, mark_at, merge_at, open_at, persist_at};
use super::worlds::one_vbucket;
use crate::{Part, Tried, try_call};
use ep_edge::Gate;
use ep_model::{Call, Config, Meta, Out, Ticket};
use std::alloc::Global;
use vb_world::World;

/// The number of the only caller.
const CALLER: u64 = 7;

/// The bytes of an event's call and answer.
const ROOM: usize = 2_097_402;

/// A world of one vBucket, which has opened.
pub fn opened(alloc: Global, config: &Config) -> Option<World<Part>>
    requires fault { config_fault config.now ≡ None }
    requires only { config.now.stripes ≡ 1 }
    ensures opened { IfSome result (IsOpened config.now) }
    ensures faults { IfSome result (λ w. FaultsAreWithin 0 (front_in w 0)) }
{
    let Ok(mut world) = one_vbucket(alloc, config) else {
        return None;
    };
    if world.count() != 1 {
        return None;
    }
    let Ok(()) = world.reserve(1, 0) else {
        return None;
    };
    let mut stage = world.stage(0, CALLER);
    if !open_at(&mut stage) {
        return None;
    }
    Some(world)
}

/// Tries a call, for which there is room, past a gate.
pub fn tried<G: Gate>(
    world: &mut World<Part>,
    config: &Config,
    call: &Call,
    now: u64,
    prior: Option<Ticket>,
    value: &mut Out,
    gate: &mut G,
) -> Option<Tried>
    requires opened { IsOpened config.now world.old }
    requires within { IsWithin (call_data call.now) }
    requires given { kind_of (call_data call.now) ≡ Change → ⊥ }
    requires moment { IsMoment now }
    requires prior { PriorsStand (front_in world.old 0) 7 (call_data call.now) prior }
    requires room { max_value ≤ value.old.spare + length value.old.bytes }
    ensures opened { IfSome result (λ _. IsOpened config.now world.new) }
    ensures later { IfSome result (λ _. IsLater (front_in world.old 0) (front_in world.new 0)) }
    ensures asked { (ticket : Ticket) → result ≡ Some (Fetch ticket)
        → PriorStands (front_in world.new 0) 7 (call_data call.now) ticket }
    ensures room { value.new.spare + length value.new.bytes ≡ value.old.spare
        + length value.old.bytes }
{
    if world.count() != 1 {
        return None;
    }
    let Ok(()) = world.reserve(1, ROOM) else {
        return None;
    };
    let mut stage = world.stage(0, CALLER);
    Some(try_call(&mut stage, 0, config, call, now, prior, value, gate))
}

/// Tells that all is stored, and answers whether all parts were there and the vBucket had opened.
pub fn persist(world: &mut World<Part>, config: &Config) -> bool
    requires opened { IsOpened config.now world.old }
    ensures opened { result ≡ true → IsOpened config.now world.new }
    ensures later { result ≡ true → IsLater (front_in world.old 0) (front_in world.new 0) }
{
    if world.count() != 1 {
        return false;
    }
    let Ok(()) = world.reserve(1, 0) else {
        return false;
    };
    let mut stage = world.stage(0, CALLER);
    persist_at(&mut stage)
}

/// Tells the stripe what is stored, and answers whether all parts were there and the vBucket had opened.
pub fn mark(world: &mut World<Part>, config: &Config) -> bool
    requires opened { IsOpened config.now world.old }
    ensures opened { result ≡ true → IsOpened config.now world.new }
    ensures later { result ≡ true → IsLater (front_in world.old 0) (front_in world.new 0) }
{
    if world.count() != 1 {
        return false;
    }
    let Ok(()) = world.reserve(1, 0) else {
        return false;
    };
    let mut stage = world.stage(0, CALLER);
    mark_at(&mut stage)
}

/// Ejects stored documents for a value of this length, and answers whether all parts were there.
pub fn eject(world: &mut World<Part>, config: &Config, len: u32) -> bool
    requires opened { IsOpened config.now world.old }
    requires len { len ≤ max_value }
    ensures opened { result ≡ true → IsOpened config.now world.new }
    ensures later { result ≡ true → IsLater (front_in world.old 0) (front_in world.new 0) }
{
    if world.count() != 1 {
        return false;
    }
    let mut stage = world.stage(0, CALLER);
    eject_at(&mut stage, len)
}

/// What memory and the queue tell of what is stored.
pub fn look(world: &mut World<Part>, config: &Config, key: u8) -> Option<Told>
    requires opened { IsOpened config.now world.old }
    ensures opened { IfSome result (λ _. IsOpened config.now world.new) }
    ensures front { front_in world.new 0 ≡ front_in world.old 0 }
{
    if world.count() != 1 {
        return None;
    }
    let mut stage = world.stage(0, CALLER);
    look_at(&mut stage, key)
}

/// Ends a read of the store with what it holds, and answers whether it did.
pub fn merge(
    world: &mut World<Part>,
    config: &Config,
    ticket: Ticket,
    key: &[u8],
    stored: Option<Meta>,
    value: &[u8],
) -> bool
    requires opened { IsOpened config.now world.old }
    requires key { IsKey key.now }
    requires value { IsValue value.now }
    ensures opened { result ≡ true → IsOpened config.now world.new }
    ensures front { front_in world.new 0 ≡ front_in world.old 0 }
{
    if world.count() != 1 {
        return false;
    }
    let mut stage = world.stage(0, CALLER);
    merge_at(&mut stage, ticket, key, stored, value)
}

/// Ends a read that failed, and answers whether it did.
pub fn fail(world: &mut World<Part>, config: &Config, ticket: Ticket, fault: u64) -> bool
    requires opened { IsOpened config.now world.old }
    requires asked { HasAsked (front_in world.old 0).events ticket }
    requires once { AllByRecursion (IsNoFault fault) (front_in world.old 0).events }
    ensures opened { result ≡ true → IsOpened config.now world.new }
    ensures faults { result ≡ true → (n : ℕ) → 1 ≤ fault → fault ≤ n
        → FaultsAreWithin n (front_in world.old 0) → FaultsAreWithin n (front_in world.new 0) }
    ensures priors { result ≡ true → (call : CallData)
        → PriorStands (front_in world.old 0) 7 call ticket
        → PriorStands (front_in world.new 0) 7 call ticket }
{
    if world.count() != 1 {
        return false;
    }
    let Ok(()) = world.reserve(1, 0) else {
        return false;
    };
    let mut stage = world.stage(0, CALLER);
    fail_at(&mut stage, ticket, fault)
}
