// Steps at one vBucket of a world, each with room for the event that it notes.
ghost use Rattle.std.specs.Prelude.{◌≡◌, ◌⊎◌, ◌+◌, ◌^◌, ◌<◌, ◌≤◌, ℕ, [], length, Some, None, IfSome, IfOk, OnErr};
ghost use Rattle.ep_model.specs.declared.call.StoreKind.TheVariants.{Set as SetKind};
ghost use Rattle.ep_model.specs.declared.data.CallData.TheVariants.{Get as GetData, Store as StoreData};
ghost use Rattle.ep_model.specs.declared.event.PartName.TheVariants.{Stripe};
ghost use Rattle.ep_model.specs.Limits.{max_value, IsKey, IsMoment, IsValue};
ghost use Rattle.ep_model.specs.Config.{fit_of};
ghost use Rattle.ep_model.specs.Front.{world_of};
ghost use Rattle.hold_stage.specs.Touches.{is_stripe, touches_call};
ghost use Rattle.vb_world.specs.World.{front_in, part_in, Sound};
ghost use Rattle.ep_drill.specs.Parts.{part_stands};
ghost use Rattle.hold_stage.specs.Priors.{PriorsStand};
ghost use Rattle.ep_drill.specs.Calls.{event_of};
ghost use Rattle.hold_stage.specs.Stays.{KeptBut};
ghost use Rattle.ep_drill.specs.StoreSide.{IsPaged};
ghost use Rattle.ep_drill.specs.Callers.{loaded_data, owned_data};
ghost use Rattle.ep_drill.specs.Core.{bench_data, BenchStands, LacksCallRoom, LacksEventRoom, MayWant, Ready, Moved, Rested, Worked};
ghost use Rattle.ep_drill.specs.Tries.{AddsPlace, ComesToGet, ComesToSet, CallComesTo, PutsDocument};
ghost use Rattle.ep_drill.specs.Works.{MarksAt};

use crate::bench::Bench;
use crate::choice::Answer;
use crate::mark::mark_once;
use crate::owned::{Loaded, OwnedCall, OwnedKey, OwnedSet};
use crate::part::Part;
use crate::store::{Paged, page_once};
use crate::tried::{try_get, try_set};
use ep_model::limits::EVENT_BYTES;
use ep_model::{Config, NoMemory, Out, Ticket};
use flat_parts::Step;
use kv_keeper::Keeper;
use std::alloc::Global;
use vb_world::World;

/// The number of whoever works on the store, which is no caller's.
pub(crate) const WORKER: u64 = u64::MAX;

// Tries a Get.
fn get_at(
    alloc: Global,
    config: &Config,
    world: &mut World<Part>,
    vb: u16,
    number: u64,
    key: &OwnedKey,
    now: u64,
    prior: Option<Ticket>,
    value: &mut Out,
) -> Result<Step, NoMemory>
    requires ready { Ready config.now world.old }
    requires vb { vb < config.now.vbuckets }
    requires prior { PriorsStand (front_in world.old vb) number (GetData key.now.bytes.items)
        prior }
    requires value { (value.old.bytes ≡ []) × (value.old.spare ≡ max_value) }
    ensures ok { IfOk result (λ step. Moved config.now vb
        (event_of number (GetData key.now.bytes.items) now prior value.new.bytes step) world.old
        world.new) }
    ensures comes { IfOk result (ComesToGet config.now.stripes (part_in world.old vb)
        (part_in world.new vb) prior key.now.bytes.items now) }
    ensures kept { KeptBut config.now (touches_call config.now (GetData key.now.bytes.items))
        (part_in world.old vb) (part_in world.new vb) }
    ensures err { OnErr result (Rested config.now world.old world.new) }
    ensures memory { OnErr result (LacksCallRoom world.old ⊎ AddsPlace config.now.stripes
        (part_in world.old vb) prior key.now.bytes.items now) }
    ensures sound { Sound part_stands world.new }
    ensures value { value.new.spare + length value.new.bytes ≡ max_value }
{
    if world.reserve(1, EVENT_BYTES).is_err() {
        return Err(NoMemory);
    }
    let mut stage = world.stage(vb, number);
    let step = try_get(
        alloc,
        &mut stage,
        config.stripes,
        &key.bytes,
        now,
        prior,
        value,
    );
    // what is so of this world is known by this call
    let _count = world.count();
    step
}

// Tries a Set.
fn set_at(
    alloc: Global,
    config: &Config,
    world: &mut World<Part>,
    vb: u16,
    number: u64,
    call: &OwnedSet,
    now: u64,
    prior: Option<Ticket>,
) -> Result<Step, NoMemory>
    requires ready { Ready config.now world.old }
    requires vb { vb < config.now.vbuckets }
    requires moment { IsMoment now }
    ensures ok { IfOk result (λ step. Moved config.now vb
        (event_of number (StoreData SetKind call.now.key.bytes.items call.now.value.items
        call.now.flags call.now.expiration call.now.cas) now prior [] step) world.old world.new) }
    ensures comes { IfOk result (ComesToSet config.now.stripes (fit_of config.now)
        (part_in world.old vb) (part_in world.new vb) prior call.now.key.bytes.items
        call.now.value.items call.now.flags call.now.expiration call.now.cas now) }
    ensures kept { KeptBut config.now (touches_call config.now
        (StoreData SetKind call.now.key.bytes.items call.now.value.items call.now.flags
        call.now.expiration call.now.cas)) (part_in world.old vb) (part_in world.new vb) }
    ensures err { OnErr result (Rested config.now world.old world.new) }
    ensures memory { OnErr result (LacksCallRoom world.old ⊎ PutsDocument config.now.stripes
        (fit_of config.now) (part_in world.old vb) prior call.now.key.bytes.items
        call.now.value.items call.now.flags call.now.expiration call.now.cas now) }
    ensures sound { Sound part_stands world.new }
{
    if world.reserve(1, EVENT_BYTES).is_err() {
        return Err(NoMemory);
    }
    let mut stage = world.stage(vb, number);
    let step = try_set(
        alloc,
        &mut stage,
        config,
        prior,
        &call.key.bytes,
        &call.value,
        call.flags,
        call.expiration,
        call.cas,
        now,
    );
    // what is so of this world is known by this call
    let _count = world.count();
    step
}

/// Tries a call of the caller `number`, whose value ends up in `value`. Where memory is wanting the parts and the
/// history are as they were.
pub(crate) fn try_loaded(
    alloc: Global,
    config: &Config,
    world: &mut World<Part>,
    number: u64,
    loaded: &Loaded,
    now: u64,
    prior: Option<Ticket>,
    value: &mut Out,
) -> Result<Step, NoMemory>
    requires ready { Ready config.now world.old }
    requires vb { loaded.now.vb < config.now.vbuckets }
    requires prior { PriorsStand (front_in world.old loaded.now.vb) number
        (owned_data loaded.now.call) prior }
    requires moment { IsMoment now }
    requires value { (value.old.bytes ≡ []) × (value.old.spare ≡ max_value) }
    ensures ok { IfOk result (λ step. Moved config.now loaded.now.vb
        (event_of number (owned_data loaded.now.call) now prior value.new.bytes step) world.old
        world.new) }
    ensures comes { IfOk result (CallComesTo config.now (part_in world.old loaded.now.vb)
        (part_in world.new loaded.now.vb) (owned_data loaded.now.call) now prior) }
    ensures kept { KeptBut config.now (touches_call config.now (owned_data loaded.now.call))
        (part_in world.old loaded.now.vb) (part_in world.new loaded.now.vb) }
    ensures err { OnErr result (Rested config.now world.old world.new) }
    ensures memory { OnErr result (MayWant config.now world.old
        (loaded_data loaded.now) now prior) }
    ensures sound { Sound part_stands world.new }
    ensures value { value.new.spare + length value.new.bytes ≡ max_value }
{
    let vb = loaded.vb;
    match &loaded.call {
        OwnedCall::Get(key) => get_at(alloc, config, world, vb, number, key, now, prior, value),
        OwnedCall::Set(call) => set_at(alloc, config, world, vb, number, call, now, prior),
    }
}

/// Tells a stripe what is stored. Memory is wanting only where the history has no room for an event.
pub(crate) fn mark_at<K: Keeper>(
    config: &Config,
    world: &mut World<Part>,
    vb: u16,
    bench: &Bench<K>,
    stripe: u16,
) -> Result<Answer, NoMemory>
    requires ready { Ready config.now world.old }
    requires vb { vb < config.now.vbuckets }
    requires stripe { stripe < config.now.stripes }
    requires bench { BenchStands (front_in world.old vb) (bench_data bench.now) }
    ensures ok { IfOk result (λ answer. MarksAt config.now vb stripe answer world.old world.new
        (bench_data bench.now) (bench_data bench.now)) }
    ensures err { OnErr result (Rested config.now world.old world.new × LacksEventRoom world.old) }
    ensures worked { Worked config.now vb world.old world.new }
    ensures bench { BenchStands (front_in world.new vb) (bench_data bench.now) }
    ensures sound { Sound part_stands world.new }
{
    if world.reserve(1, 0).is_err() {
        return Err(NoMemory);
    }
    let mut stage = world.stage(vb, WORKER);
    let marking = mark_once(&bench.desk, &mut stage, stripe);
    // what is so of this world is known by this call
    let _count = world.count();
    Ok(Answer::Marked(marking))
}

/// Ejects all values of a stripe that are stored.
pub(crate) fn page_at(config: &Config, world: &mut World<Part>, vb: u16, stripe: u16) -> Paged
    requires ready { Ready config.now world.old }
    requires vb { vb < config.now.vbuckets }
    requires stripe { stripe < config.now.stripes }
    ensures paged { IsPaged (part_in world.old vb (Stripe stripe))
        (part_in world.new vb (Stripe stripe)) result }
    ensures kept { KeptBut config.now (is_stripe stripe) (part_in world.old vb)
        (part_in world.new vb) }
    ensures worked { Moved config.now vb None world.old world.new }
    ensures sound { Sound part_stands world.new }
{
    let mut stage = world.stage(vb, WORKER);
    let paged = page_once(&mut stage, stripe);
    // what is so of this world is known by this call
    let _count = world.count();
    paged
}
