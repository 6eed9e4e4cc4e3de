ghost use Rattle.std.specs.Prelude.{◌≡◌, ◌+◌, ◌%◌, ◌<◌, ◌≤◌, ◌^◌, ℕ, true, false, [], ◌∷◌, length, Some, None, IfOk, IfErr};
ghost use Rattle.ep_model.specs.declared.event.PartName.{PartName};
ghost use Rattle.ep_model.specs.declared.event.PartName.TheVariants.{Stripe};
ghost use Rattle.ep_model.specs.Legal.{IsLegal};
ghost use Rattle.ep_model.specs.Stripes.{stripe_of as stripe_at};
ghost use Rattle.hold_stage.specs.Touches.{there};
ghost use Rattle.hold_stage.specs.Stays.{Stays};
ghost use Rattle.hold_stage.specs.Grows.{IsNone, Same};
ghost use Rattle.hold_stage.specs.Went.{Went, LeavesRoom, with_noted};
ghost use Rattle.vb_world.specs.History.{events_of};
ghost use Rattle.vb_world.specs.World.{front_in, part_in, has_out};
ghost use Rattle.turn_stage.specs.Unopened.{IsUnopened, unopened_keeps};
ghost use Rattle.turn_stage.specs.Made.{refusal, noted_by, HasRefused, StripeBecomes, KeepsOtherParts, only_if, key_at, made, MadeCalls, AreMade, HasJoined};
ghost use Rattle.turn_stage.specs.Parts.{AreParts, first_view};
ghost use Rattle.turn_stage.specs.Slots.{has};
ghost use Rattle.turn_stage.specs.Passes.{view_of, pass_data, IsPassOf};

use crate::{TurnPass, Turns};
use ep_model::{Busy, Call, Cause, Config, Event, Eviction, NoMemory, PartName, stripe_of};
use hold_stage::{Beginning, Stage, Stands};
use std::alloc::Global;
use std::marker::Brand;
use std::test::Fail;
use std::thread;
use std::thread::Threads;
use vb_world::{History, World};

/// How many calls each thread makes, and how often it tries at most.
const CALLS: u32 = 100_000;

const TRIES: u32 = 200_000_000;

const ONE: Config = Config {
    vbuckets: 1,
    stripes: 1,
    blocks: 16,
    ckpt_blocks: 16,
    ckpt_max: 1,
    eviction: Eviction::Value,
    early: false,
};

const FOUR: Config = Config { stripes: 4, ..ONE };

// A part of a vBucket that never opens, which counts the turns at it.
#[derive(Drop)]
struct Tally {
    count: u64,
}

impl Stands for Tally {
    ghost stands = { λ part front _. IsUnopened part front };

    ghost keeps = { λ part front event _ _ _. unopened_keeps part front event };
}

// A part that stands for every history.
#[derive(Drop)]
struct Plain {
    number: u64,
}

impl Stands for Plain {
    ghost stands = { λ _ _ _. Unit {0} };

    ghost keeps = { λ _ _ _ _ _ _ _ _. tt };
}

// A Get of a key at any stage: its stripe is taken and counts up, the refusal is noted, and the stripe is given back.
// Where the stripe is busy nothing is noted.
fn refuse<S: Stage<Part = Tally>>(
    stage: &mut S,
    key: &[u8],
    now: u64,
    stripes: u16,
) -> Result<(), Busy>
    requires some { 0 < stripes }
    requires stripes { (S.front stage.old).config.stripes ≡ stripes }
    requires free { S.holds stage.old (Stripe (stripe_at key.now stripes)) ≡ false }
    requires room { S.covers stage.old 1 (length key.now) }
    ensures stays { Stays S.lent S.fixed S.number S.is_desk S.is_telling stage.old stage.new }
    ensures went { Went (S.front stage.old) (S.front stage.new) (S.holds stage.old)
        (S.number stage.old) (S.is_desk stage.old)
        (noted_by (refusal (S.number stage.old) key.now now) result) }
    ensures room { LeavesRoom (S.covers stage.old) (S.covers stage.new)
        (noted_by (refusal (S.number stage.old) key.now now) result) }
    ensures refused { HasRefused (S.front stage.new) (stripe_at key.now stripes)
        (S.losses stage.old) (S.losses stage.new) result }
    ensures elsewhere { IfErr result (λ _. S.elsewhere stage.old
        (Stripe (stripe_at key.now stripes))) }
    ensures held { Same (S.holds stage.new) (S.holds stage.old) }
    ensures alone { S.is_telling stage.old ≡ true → S.front stage.new
        ≡ with_noted (S.front stage.old) (noted_by (refusal (S.number stage.old) key.now now)
        result) }
    ensures becomes { S.is_telling stage.old ≡ true
        → StripeBecomes (S.tells stage.old (Stripe (stripe_at key.now stripes)))
        (S.tells stage.new (Stripe (stripe_at key.now stripes)))
        (λ x. record x { count = (x.count + 1) % 2 ^ 64 }) result }
    ensures kept { S.is_telling stage.old ≡ true
        → KeepsOtherParts (S.front stage.old).config (stripe_at key.now stripes) (S.tells stage.old)
        (S.tells stage.new) }
{
    let caller = stage.caller();
    let part = PartName::Stripe(stripe_of(key, stripes));
    let mut tally = match stage.take(part) {
        Ok(tally) => tally,
        Err(busy) => return Err(busy),
    };
    tally.count = tally.count.wrapping_add(1);
    stage.note(&Event::Refused {
        caller,
        call: Call::Get { key },
        now,
        cause: Cause::Warming,
    });
    stage.give(part, tally);
    Ok(())
}

// A Get of a key at a pass's stage. Whether its stripe was free.
fn refuse_at(turns: &Turns<Tally>, pass: &mut TurnPass<Tally>, key: &[u8], now: u64) -> bool
    requires of { IsPassOf turns.now pass.old }
    requires stripes { turns.now.config.stripes ≡ 4 }
    requires none { IsNone (has (view_of pass.old).held) }
    ensures ran { MadeCalls turns.now pass.old pass.new
        (only_if result (refusal (view_of pass.old).caller key.now now)) }
{
    let mut stage = turns.stage(pass);
    refuse(&mut stage, key, now, 4).is_ok()
}

// What a thread does with its pass: `CALLS` Gets of four keys in turn. Where a stripe is busy it tries again. How many
// it made.
fn run(turns: &Turns<Tally>, mut pass: TurnPass<Tally>, first: u32) -> (TurnPass<Tally>, u32)
    requires of { IsPassOf turns.now pass }
    requires stripes { turns.now.config.stripes ≡ 4 }
    requires none { IsNone (has (view_of pass).held) }
    requires first { first < 4 }
    ensures ran { MadeCalls turns.now pass result.0 (made (view_of pass).caller first result.1) }
{
    let mut calls = 0u32;
    for _ in 0..TRIES {
        if calls == CALLS {
            break;
        }
        let key = [((first + calls) % 4) as u8];
        if refuse_at(turns, &mut pass, &key, u64::from(calls)) {
            calls += 1;
        }
    }
    (pass, calls)
}

// The same Get at a world's stage.
fn refuse_alone(
    world: &mut World<Tally>,
    vb: u16,
    caller: u64,
    key: &[u8],
    now: u64,
    stripes: u16,
) -> Result<(), Busy>
    requires vb { vb < length world.old.buckets }
    requires some { 0 < stripes }
    requires stripes { world.old.config.stripes ≡ stripes }
    requires free { has_out world.old vb caller (Stripe (stripe_at key.now stripes)) ≡ false }
    requires events { 1 ≤ world.old.event_room }
    requires bytes { length key.now ≤ world.old.byte_room }
    ensures front { front_in world.new vb ≡ with_noted (front_in world.old vb)
        (noted_by (refusal caller key.now now) result) }
    ensures becomes { StripeBecomes (part_in world.old vb (Stripe (stripe_at key.now stripes)))
        (part_in world.new vb (Stripe (stripe_at key.now stripes)))
        (λ x. record x { count = (x.count + 1) % 2 ^ 64 }) result }
{
    refuse(&mut world.stage(vb, caller), key, now, stripes)
}

// The Get of a key in a new world with one vBucket. Whether its stripe was free, and what then happened.
fn refuse_first(alloc: Global, key: [u8; 1]) -> Result<(bool, History), NoMemory>
    ensures free { IfOk result (λ told. told.0 ≡ true) }
    ensures events { IfOk result (λ told. events_of 0 told.1 ≡ refusal 7 key 0 ∷ []) }
{
    let mut world = World::new(alloc, &ONE)?;
    world.add(tallies(alloc)?)?;
    world.reserve(1, 1)?;
    let free = refuse_alone(&mut world, 0, 7, &key, 0, 1).is_ok();
    Ok((free, world.into_history()))
}

// Two threads, each with a pass of its own.
fn run_two<R: Threads + Sync>(
    rt: &R,
    turns: &Turns<Tally>,
    one: TurnPass<Tally>,
    other: TurnPass<Tally>,
    first: u32,
) -> ((TurnPass<Tally>, u32), (TurnPass<Tally>, u32))
    requires of { IsPassOf turns.now one × IsPassOf turns.now other }
    requires stripes { turns.now.config.stripes ≡ 4 }
    requires none { IsNone (has (view_of one).held) × IsNone (has (view_of other).held) }
    requires first { first < 3 }
    ensures one { MadeCalls turns.now one result.0.0 (made (view_of one).caller first result.0.1) }
    ensures other { MadeCalls turns.now other result.1.0
        (made (view_of other).caller (first + 1) result.1.1) }
{
    thread::join(
        rt,
        move || -> (TurnPass<Tally>, u32)
            requires of { IsPassOf turns.now one }
            requires stripes { turns.now.config.stripes ≡ 4 }
            requires none { IsNone (has (view_of one).held) }
            requires first { first < 4 }
            ensures { MadeCalls turns.entry.now one result.0
                (made (view_of one).caller first result.1) }
        { run(turns, one, first) },
        move || -> (TurnPass<Tally>, u32)
            requires of { IsPassOf turns.now other }
            requires stripes { turns.now.config.stripes ≡ 4 }
            requires none { IsNone (has (view_of other).held) }
            requires first { first < 3 }
            ensures { MadeCalls turns.entry.now other result.0
                (made (view_of other).caller (first + 1) result.1) }
        { run(turns, other, first + 1) },
    )
}

// The parts of a vBucket with one stripe.
fn tallies(alloc: Global) -> Result<Vec<Tally>, NoMemory>
    ensures { IfOk result (λ parts. length parts.items ≡ 3) }
{
    let mut parts = Vec::with_capacity(alloc, 3)?;
    parts.push(Tally { count: 5 })?;
    parts.push(Tally { count: 6 })?;
    parts.push(Tally { count: 7 })?;
    Ok(parts)
}

// The turns of a vBucket with one stripe, and their first pass.
fn one_stripe(alloc: Global) -> Result<(Turns<Tally>, TurnPass<Tally>), NoMemory>
    ensures of { IfOk result (λ r. IsPassOf r.0 r.1) }
    ensures first { IfOk result (λ r. view_of r.1 ≡ first_view ONE 0) }
{
    let parts = tallies(alloc)?;
    Turns::new(alloc, &ONE, 0, parts)
}

// Whether a part is with somebody else. A part that is free is given back.
fn is_out(turns: &Turns<Tally>, pass: &mut TurnPass<Tally>, part: PartName) -> bool
    requires of { IsPassOf turns.now pass.old }
    requires there { there turns.now.config part ≡ true }
    requires none { IsNone (has (view_of pass.old).held) }
    ensures of { IsPassOf turns.now pass.new }
    ensures none { IsNone (has (view_of pass.new).held) }
    ensures numbers { pass_data (view_of pass.new) ≡ pass_data (view_of pass.old) }
{
    let mut stage = turns.stage(pass);
    stage.look();
    match stage.take(part) {
        Ok(value) => {
            stage.give(part, value);
            false
        }
        Err(busy) => busy.part == part,
    }
}

#[test]
fn a_part_that_is_out_is_busy_until_it_is_given_back(rt: HostRuntime) -> Result<(), Fail> {
    let (turns, mut first) = one_stripe(rt.alloc())?;
    let mut second = turns.split(&mut first);
    let mut third = turns.split(&mut first);
    assert!(rt; first.left() == u64::MAX - 2 && second.left() == 0);
    let mut stage = turns.stage(&mut first);
    let Ok(mut queue) = stage.take(PartName::Queue) else {
        panic!(rt; "nobody has the queue")
    };
    assert!(rt; is_out(&turns, &mut second, PartName::Queue));
    let mut free = turns.stage(&mut third);
    let Ok(desk) = free.take(PartName::Desk) else {
        panic!(rt; "nobody has the desk")
    };
    assert!(rt; queue.count == 6 && desk.count == 7);
    free.give(PartName::Desk, desk);
    queue.count = 8;
    stage.give(PartName::Queue, queue);
    let Ok(queue) = free.take(PartName::Queue) else {
        panic!(rt; "the queue was given back")
    };
    assert!(rt; free.caller() == 2 && queue.count == 8);
    free.give(PartName::Queue, queue);
    turns.join(&mut first, second);
    turns.join(&mut first, third);
    let parts = turns.close(first);
    let mut counts = parts.iter().map(|part| part.count);
    assert!(rt; counts.eq([5, 8, 7]));
    Ok(())
}

#[test]
fn a_joined_pass_goes_on_and_gives_numbers(rt: HostRuntime) -> Result<(), Fail> {
    let (turns, mut first) = one_stripe(rt.alloc())?;
    let mut second = turns.split(&mut first);
    assert!(rt; refuse(&mut turns.stage(&mut second), &[3], 1, 1).is_ok());
    turns.join(&mut second, first);
    assert!(rt; second.left() == u64::MAX - 1);
    assert!(rt; refuse(&mut turns.stage(&mut second), &[4], 2, 1).is_ok());
    let mut third = turns.split(&mut second);
    let mut stage = turns.stage(&mut third);
    assert!(rt; stage.caller() == 2);
    assert!(rt; refuse(&mut stage, &[5], 3, 1).is_ok());
    turns.join(&mut third, second);
    let parts = turns.close(third);
    let mut counts = parts.iter().map(|part| part.count);
    assert!(rt; counts.eq([8, 6, 7]));
    Ok(())
}

// Parts of a vBucket with one stripe, which stand for every history.
fn plains(alloc: Global) -> Result<Vec<Plain>, NoMemory>
    ensures { IfOk result (λ parts. length parts.items ≡ 3) }
{
    let mut parts = Vec::with_capacity(alloc, 3)?;
    parts.push(Plain { number: 0 })?;
    parts.push(Plain { number: 1 })?;
    parts.push(Plain { number: 2 })?;
    Ok(parts)
}

// Takes all parts of a vBucket with one stripe, puts a start and gives them back. Whether all were free.
fn begin_all<B: Beginning>(turns: &Turns<Plain>, pass: &mut TurnPass<Plain>) -> bool
    requires of { IsPassOf turns.now pass.old }
    requires one { turns.now.config.stripes ≡ 1 }
    requires none { IsNone (has (view_of pass.old).held) }
    requires desk { (view_of pass.old).desk ≡ true }
    requires bare { (view_of pass.old).front.start ≡ None }
    ensures of { IsPassOf turns.now pass.new }
    ensures share { (view_of pass.new).share ≡ (view_of pass.old).share }
    ensures none { result ≡ true → IsNone (has (view_of pass.new).held) }
    ensures start { result ≡ true → (view_of pass.new).front.start ≡ Some B.start }
{
    let mut stage = turns.stage(pass);
    let Ok(stripe) = stage.take(PartName::Stripe(0)) else {
        return false;
    };
    let Ok(queue) = stage.take(PartName::Queue) else {
        return false;
    };
    let Ok(desk) = stage.take(PartName::Desk) else {
        return false;
    };
    stage.begin::<B>();
    stage.give(PartName::Stripe(0), stripe);
    stage.give(PartName::Queue, queue);
    stage.give(PartName::Desk, desk);
    true
}

#[test]
fn a_start_is_put_while_all_parts_are_held(rt: HostRuntime) -> Result<(), Fail> {
    let (turns, mut first) = Turns::new(rt.alloc(), &ONE, 0, plains(rt.alloc())?)?;
    let mut second = turns.split(&mut first);
    assert!(rt; begin_all::<Brand>(&turns, &mut first));
    let mut stage = turns.stage(&mut second);
    let Ok(desk) = stage.take(PartName::Desk) else {
        panic!(rt; "the desk was given back")
    };
    assert!(rt; desk.number == 2);
    stage.give(PartName::Desk, desk);
    turns.join(&mut first, second);
    let parts = turns.close(first);
    let mut numbers = parts.iter().map(|part| part.number);
    assert!(rt; numbers.eq([0, 1, 2]));
    Ok(())
}

// The turns of a vBucket with four stripes, and their first pass.
fn four_stripes(alloc: Global) -> Result<(Turns<Tally>, TurnPass<Tally>), NoMemory>
    ensures of { IfOk result (λ r. IsPassOf r.0 r.1) }
    ensures first { IfOk result (λ r. view_of r.1 ≡ first_view FOUR 0) }
{
    let mut parts = Vec::with_capacity(alloc, 6)?;
    parts.push(Tally { count: 0 })?;
    parts.push(Tally { count: 0 })?;
    parts.push(Tally { count: 0 })?;
    parts.push(Tally { count: 0 })?;
    parts.push(Tally { count: 0 })?;
    parts.push(Tally { count: 0 })?;
    Turns::new(alloc, &FOUR, 0, parts)
}

// Four threads, each with a pass of its own, which are joined. How many calls each made.
fn run_four<R: Threads + Sync>(
    rt: &R,
    turns: &Turns<Tally>,
    mut first: TurnPass<Tally>,
) -> (TurnPass<Tally>, u32, [u32; 3])
    requires of { IsPassOf turns.now first }
    requires first { view_of first ≡ first_view FOUR 0 }
    ensures of { IsPassOf turns.now result.0 }
    ensures alone { (view_of result.0).share ≡ 2 ^ 64 }
    ensures none { IsNone (has (view_of result.0).held) }
    ensures joined { HasJoined (view_of result.0) result.1 result.2 }
{
    let second = turns.split(&mut first);
    let third = turns.split(&mut first);
    let fourth = turns.split(&mut first);
    let (((mut first, n), (second, m)), ((third, k), (fourth, l))) = thread::join(
        rt,
        move || -> ((TurnPass<Tally>, u32), (TurnPass<Tally>, u32))
            requires of { IsPassOf turns.now first × IsPassOf turns.now second }
            requires stripes { turns.now.config.stripes ≡ 4 }
            requires none { IsNone (has (view_of first).held) × IsNone (has (view_of second).held) }
            ensures one { MadeCalls turns.entry.now first result.0.0
                (made (view_of first).caller 0 result.0.1) }
            ensures other { MadeCalls turns.entry.now second result.1.0
                (made (view_of second).caller 1 result.1.1) }
        { run_two(rt, turns, first, second, 0) },
        move || -> ((TurnPass<Tally>, u32), (TurnPass<Tally>, u32))
            requires of { IsPassOf turns.now third × IsPassOf turns.now fourth }
            requires stripes { turns.now.config.stripes ≡ 4 }
            requires none { IsNone (has (view_of third).held) × IsNone (has (view_of fourth).held) }
            ensures one { MadeCalls turns.entry.now third result.0.0
                (made (view_of third).caller 2 result.0.1) }
            ensures other { MadeCalls turns.entry.now fourth result.1.0
                (made (view_of fourth).caller 3 result.1.1) }
        { run_two(rt, turns, third, fourth, 2) },
    );
    turns.join(&mut first, second);
    turns.join(&mut first, third);
    turns.join(&mut first, fourth);
    (first, n, [m, k, l])
}

// The turns closed, once all calls are made: the front has of each caller its calls in order, each once, and no other
// event of it.
fn close_made(turns: Turns<Tally>, pass: TurnPass<Tally>, first: u32, others: &[u32]) -> Vec<Tally>
    requires of { IsPassOf turns pass }
    requires alone { (view_of pass).share ≡ 2 ^ 64 }
    requires none { IsNone (has (view_of pass).held) }
    requires joined { HasJoined (view_of pass) first others.now }
    ensures parts { AreParts (λ part front _. IsUnopened part front) (view_of pass).front
        result.items }
    ensures legal { IsLegal (view_of pass).front }
    ensures made { AreMade (view_of pass).front 0 (first ∷ others.now) }
{
    turns.close(pass)
}

#[test]
fn four_threads_make_each_call_once_in_order(rt: HostRuntime) -> Result<(), Fail> {
    let (turns, pass) = four_stripes(rt.alloc())?;
    let (pass, first, others) = run_four(&rt, &turns, pass);
    assert!(rt; first == CALLS && others == [CALLS; 3]);
    let parts = close_made(turns, pass, first, &others);
    let mut counts = parts.iter().map(|part| part.count);
    assert!(rt; counts.eq([100_000, 100_000, 100_000, 100_000, 0, 0]));
    Ok(())
}

#[test]
fn a_call_made_between_threads_is_made_alone_too(rt: HostRuntime) -> Result<(), Fail> {
    let (free, history) = refuse_first(rt.alloc(), [9])?;
    assert!(rt; free && history.count() == 1);
    Ok(())
}
