// Calls of clients on the parts of a vBucket.
ghost use Rattle.std.specs.Prelude.{◌≡◌, ◌+◌, ◌^◌, ◌<◌, ◌≤◌, ◌++◌, ℕ, true, false, if◌then◌else◌, [], length, Some, None, IfSome, IfOk, OnOk, OnErr};
ghost use Rattle.ep_model.specs.declared.call.StoreKind.TheVariants.{Set as SetKind};
ghost use Rattle.ep_model.specs.declared.config.Eviction.TheVariants.{Value as ValueEviction};
ghost use Rattle.ep_model.specs.declared.data.CallData.TheVariants.{Get as GetData, Store as StoreData};
ghost use Rattle.ep_model.specs.declared.event.PartName.{PartName};
ghost use Rattle.ep_model.specs.declared.event.PartName.TheVariants.{Stripe, Queue};
ghost use Rattle.ep_model.specs.Limits.{max_key, max_value, event_bytes, IsKey, IsMoment, IsValue, IsWithin};
ghost use Rattle.ep_model.specs.Config.{fit_of};
ghost use Rattle.ep_model.specs.History.{call_data};
ghost use Rattle.ep_model.specs.Legal.{May, IsLegal};
ghost use Rattle.hold_stage.specs.Touches.{there, touches_call, bytes_of};
ghost use Rattle.hold_stage.specs.Stays.{Stays, KeptBut};
ghost use Rattle.hold_stage.specs.Grows.{Same, IsNone, Covered, IsOwn};
ghost use Rattle.hold_stage.specs.Went.{with_noted, HasRoom};
ghost use Rattle.ep_drill.specs.Calls.{event_of, AreHome};
ghost use Rattle.hold_stage.specs.Priors.{is_prior, PriorsStand};
ghost use Rattle.ep_drill.specs.Tries.{AddsPlace, ComesToGet, ComesToSet, PutsDocument};

use crate::hold::{take_queue, take_stripe};
use crate::part::Part;
use ep_model::{Call, Config, Event, NoMemory, Out, PartName, StoreKind, Ticket, stripe_of};
use flat_parts::Step;
use flat_parts::write::write;
use hold_stage::{Stage, is_prior};
use std::alloc::Global;

// Notes what a call came to, where that is an event.
fn note_step<S: Stage<Part = Part>>(
    stage: &mut S,
    call: &Call,
    now: u64,
    prior: Option<Ticket>,
    step: Step,
    value: &[u8],
)
    requires telling { S.is_telling stage.old ≡ true }
    requires covered { IfSome (event_of (S.number stage.old) (call_data call.now) now prior
        value.now step) (Covered (S.holds stage.old) (S.front stage.old)) }
    requires may { IfSome (event_of (S.number stage.old) (call_data call.now) now prior value.now
        step) (May (S.front stage.old)) }
    requires bytes { IfSome (event_of (S.number stage.old) (call_data call.now) now prior value.now
        step) (λ e. bytes_of e ≤ event_bytes) }
    requires legal { IsLegal (S.front stage.old) }
    requires room { HasRoom event_bytes (S.covers stage.old) }
    ensures stays { Stays S.lent S.fixed S.number S.is_desk S.is_telling stage.old stage.new }
    ensures front { S.front stage.new ≡ with_noted (S.front stage.old)
        (event_of (S.number stage.old) (call_data call.now) now prior value.now step) }
    ensures legal { IsLegal (S.front stage.new) }
    ensures held { Same (S.holds stage.new) (S.holds stage.old) }
    ensures tells { (p : PartName) → S.tells stage.new p ≡ S.tells stage.old p }
{
    let caller = stage.caller();
    match step {
        Step::Done(reply) => stage.note(&Event::Called {
            caller,
            call: *call,
            now,
            reply,
            value,
        }),
        Step::Refused(cause) => stage.note(&Event::Refused {
            caller,
            call: *call,
            now,
            cause,
        }),
        Step::Fetch(ticket) => {
            if !is_prior(prior, ticket) {
                stage.note(&Event::Asked {
                    ticket,
                    caller,
                    call: *call,
                });
            }
        }
        Step::FetchFull => {}
    }
}

/// Tries a Get. It takes memory only for a place that it asks at, and where that is wanting the parts and the history are as they were.
pub(crate) fn try_get<S: Stage<Part = Part>>(
    alloc: Global,
    stage: &mut S,
    stripes: u16,
    key: &[u8],
    now: u64,
    prior: Option<Ticket>,
    value: &mut Out,
) -> Result<Step, NoMemory>
    requires stripes { (stripes ≡ (S.front stage.old).config.stripes) × (0 < stripes) }
    requires eviction { (S.front stage.old).config.eviction ≡ ValueEviction }
    requires telling { S.is_telling stage.old ≡ true }
    requires home { AreHome (S.front stage.old).config (S.tells stage.old) }
    requires free { IsNone (S.holds stage.old) }
    requires room { HasRoom event_bytes (S.covers stage.old) }
    requires key { IsKey key.now }
    requires prior { PriorsStand (S.front stage.old) (S.number stage.old) (GetData key.now) prior }
    requires value { (value.old.bytes ≡ []) × (value.old.spare ≡ max_value) }
    ensures stays { Stays S.lent S.fixed S.number S.is_desk S.is_telling stage.old stage.new }
    ensures front { IfOk result (λ step. S.front stage.new
        ≡ with_noted (S.front stage.old) (event_of (S.number stage.old) (GetData key.now) now prior
        value.new.bytes step)) }
    ensures comes { IfOk result (ComesToGet stripes (S.tells stage.old) (S.tells stage.new) prior
        key.now now) }
    ensures kept { KeptBut (S.front stage.old).config
        (touches_call (S.front stage.old).config (GetData key.now)) (S.tells stage.old)
        (S.tells stage.new) }
    ensures err { OnErr result (S.front stage.new ≡ S.front stage.old) }
    ensures parts { OnErr result ((p : PartName) → there (S.front stage.old).config p ≡ true
        → S.tells stage.new p ≡ S.tells stage.old p) }
    ensures memory { OnErr result (AddsPlace stripes (S.tells stage.old) prior key.now now) }
    ensures free { Same (S.holds stage.new) (S.holds stage.old) }
    ensures home { AreHome (S.front stage.old).config (S.tells stage.new) }
    ensures value { value.new.spare + length value.new.bytes ≡ max_value }
{
    let stripe = stripe_of(key, stripes);
    let mut part = take_stripe(stage, stripe);
    match part.read(alloc, prior, key, now, value) {
        Ok(step) => {
            note_step(stage, &Call::Get { key }, now, prior, step, value.bytes());
            stage.give(PartName::Stripe(stripe), Part::Stripe(part));
            Ok(step)
        }
        Err(NoMemory) => {
            stage.give(PartName::Stripe(stripe), Part::Stripe(part));
            Err(NoMemory)
        }
    }
}

/// Tries a Set. It takes memory only for its document, and where that is wanting the parts and the history are as they were.
pub(crate) fn try_set<S: Stage<Part = Part>>(
    alloc: Global,
    stage: &mut S,
    config: &Config,
    prior: Option<Ticket>,
    key: &[u8],
    value: &[u8],
    flags: u32,
    expiration: u32,
    cas: u64,
    now: u64,
) -> Result<Step, NoMemory>
    requires config { (config.now ≡ (S.front stage.old).config) × (0 < config.now.stripes) }
    requires telling { S.is_telling stage.old ≡ true }
    requires home { AreHome (S.front stage.old).config (S.tells stage.old) }
    requires free { IsNone (S.holds stage.old) }
    requires room { HasRoom event_bytes (S.covers stage.old) }
    requires key { IsKey key.now }
    requires value { IsValue value.now }
    requires moment { IsMoment now }
    ensures stays { Stays S.lent S.fixed S.number S.is_desk S.is_telling stage.old stage.new }
    ensures front { IfOk result (λ step. S.front stage.new
        ≡ with_noted (S.front stage.old) (event_of (S.number stage.old)
        (StoreData SetKind key.now value.now flags expiration cas) now prior [] step)) }
    ensures comes { IfOk result (ComesToSet config.now.stripes (fit_of config.now)
        (S.tells stage.old) (S.tells stage.new) prior key.now value.now flags expiration cas now) }
    ensures kept { KeptBut config.now (touches_call config.now
        (StoreData SetKind key.now value.now flags expiration cas)) (S.tells stage.old)
        (S.tells stage.new) }
    ensures err { OnErr result (S.front stage.new ≡ S.front stage.old) }
    ensures parts { OnErr result ((p : PartName) → there (S.front stage.old).config p ≡ true
        → S.tells stage.new p ≡ S.tells stage.old p) }
    ensures memory { OnErr result (PutsDocument config.now.stripes (fit_of config.now)
        (S.tells stage.old) prior key.now value.now flags expiration cas now) }
    ensures free { Same (S.holds stage.new) (S.holds stage.old) }
    ensures home { AreHome (S.front stage.old).config (S.tells stage.new) }
{
    let call = Call::Store {
        kind: StoreKind::Set,
        key,
        value,
        flags,
        expiration,
        cas,
    };
    let fit = config.blocks.min(config.ckpt_blocks);
    let stripe = stripe_of(key, config.stripes);
    let mut part = take_stripe(stage, stripe);
    let mut queue = take_queue(stage);
    match write(
        alloc, &mut part, &mut queue, fit, prior, key, value, flags, expiration, cas, now,
    ) {
        Ok(step) => {
            note_step(stage, &call, now, prior, step, &[]);
            stage.give(PartName::Queue, Part::Queue(queue));
            stage.give(PartName::Stripe(stripe), Part::Stripe(part));
            Ok(step)
        }
        Err(NoMemory) => {
            stage.give(PartName::Queue, Part::Queue(queue));
            stage.give(PartName::Stripe(stripe), Part::Stripe(part));
            Err(NoMemory)
        }
    }
}
