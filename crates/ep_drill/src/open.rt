// How a vBucket is made and opened.
ghost use Rattle.std.specs.Prelude.{◌≡◌, ◌+◌, ◌<◌, ◌≤◌, ◌&&◌, not, ℕ, true, false, [], length, Some, None, IsSome, IfOk, OnOk};
ghost use Rattle.ep_model.specs.declared.config.Config.{Config};
ghost use Rattle.ep_model.specs.declared.data.EventData.TheVariants.{Opened};
ghost use Rattle.ep_model.specs.declared.event.PartName.{PartName};
ghost use Rattle.ep_model.specs.Config.{config_fault};
ghost use Rattle.ep_model.specs.Front.{with_event, with_start, empty_start};
ghost use Rattle.hold_stage.specs.Touches.{there};
ghost use Rattle.hold_stage.specs.Stays.{Stays};
ghost use Rattle.hold_stage.specs.Grows.{Same, IsNone};
ghost use Rattle.vb_world.specs.World.{part_in, StandBare, Sound};
ghost use Rattle.ep_drill.specs.Parts.{part_stands};
ghost use Rattle.ep_drill.specs.Calls.{AreHome};
ghost use Rattle.hold_stage.specs.Went.{HasRoom};
ghost use Rattle.ep_drill.specs.Opens.{bare_stripes, bare_list, is_below, HasJustOpened, Added};

use crate::hold::{take_desk, take_queue, take_stripe};
use crate::part::{DeskPart, Part};
use ep_model::{Config, Event, NoMemory, PartName};
use flat_parts::{FlatQueue, FlatStripe};
use hold_stage::Stage;
use std::alloc::Global;
use std::marker::Brand;
use vb_world::World;

// Takes all stripes, which are dropped.
fn take_stripes<S: Stage<Part = Part>>(stage: &mut S, stripes: u16)
    requires stripes { stripes ≡ (S.front stage.old).config.stripes }
    requires telling { S.is_telling stage.old ≡ true }
    requires home { AreHome (S.front stage.old).config (S.tells stage.old) }
    requires free { IsNone (S.holds stage.old) }
    ensures stays { Stays S.lent S.fixed S.number S.is_desk S.is_telling stage.old stage.new }
    ensures room { (n b : ℕ) → S.covers stage.old n b → S.covers stage.new n b }
    ensures front { S.front stage.new ≡ S.front stage.old }
    ensures held { (p : PartName) → S.holds stage.new p ≡ is_below stripes p }
    ensures tells { (p : PartName) → there (S.front stage.old).config p ≡ true → is_below stripes p
        ≡ false → S.tells stage.new p ≡ S.tells stage.old p }
{
    for stripe in 0..stripes {
        // the empty part gives way to one that has opened
        let _part = take_stripe(stage, stripe);
    }
}

// Takes all parts, which are dropped.
fn take_all<S: Stage<Part = Part>>(stage: &mut S, stripes: u16)
    requires stripes { stripes ≡ (S.front stage.old).config.stripes }
    requires telling { S.is_telling stage.old ≡ true }
    requires home { AreHome (S.front stage.old).config (S.tells stage.old) }
    requires free { IsNone (S.holds stage.old) }
    ensures stays { Stays S.lent S.fixed S.number S.is_desk S.is_telling stage.old stage.new }
    ensures room { (n b : ℕ) → S.covers stage.old n b → S.covers stage.new n b }
    ensures front { S.front stage.new ≡ S.front stage.old }
    ensures held { (p : PartName) → S.holds stage.new p ≡ there (S.front stage.old).config p }
{
    take_stripes(stage, stripes);
    // so do the others
    let _queue = take_queue(stage);
    let _desk = take_desk(stage);
}

// Gives all stripes of a vBucket that has just opened.
fn give_stripes<S: Stage<Part = Part>>(alloc: Global, stage: &mut S, stripes: u16)
    requires stripes { stripes ≡ (S.front stage.old).config.stripes }
    requires opened { HasJustOpened (S.front stage.old) }
    requires telling { S.is_telling stage.old ≡ true }
    requires held { (p : PartName) → S.holds stage.old p ≡ there (S.front stage.old).config p }
    ensures stays { Stays S.lent S.fixed S.number S.is_desk S.is_telling stage.old stage.new }
    ensures front { S.front stage.new ≡ S.front stage.old }
    ensures held { (p : PartName) → S.holds stage.new p
        ≡ (not (is_below stripes p) && S.holds stage.old p) }
    ensures home { (p : PartName) → is_below stripes p ≡ true → IsSome (S.tells stage.new p) }
{
    for stripe in 0..stripes {
        let mut part = FlatStripe::new(alloc, stripe);
        part.open();
        stage.give(PartName::Stripe(stripe), Part::Stripe(part));
    }
}

// Gives all parts of a vBucket that has just opened.
fn give_all<S: Stage<Part = Part>>(alloc: Global, stage: &mut S, stripes: u16)
    requires stripes { stripes ≡ (S.front stage.old).config.stripes }
    requires opened { HasJustOpened (S.front stage.old) }
    requires telling { S.is_telling stage.old ≡ true }
    requires held { (p : PartName) → S.holds stage.old p ≡ there (S.front stage.old).config p }
    ensures stays { Stays S.lent S.fixed S.number S.is_desk S.is_telling stage.old stage.new }
    ensures front { S.front stage.new ≡ S.front stage.old }
    ensures free { IsNone (S.holds stage.new) }
    ensures home { AreHome (S.front stage.old).config (S.tells stage.new) }
{
    give_stripes(alloc, stage, stripes);
    let mut queue = FlatQueue::new(alloc);
    queue.open();
    stage.give(PartName::Queue, Part::Queue(queue));
    stage.give(PartName::Desk, Part::Desk(DeskPart { persisted: 0 }));
}

// Opens a vBucket in whose history nothing happened. Its parts are dropped, and it gets new ones, which know that it
// has opened.
fn open_parts<S: Stage<Part = Part>>(alloc: Global, stage: &mut S, stripes: u16)
    requires stripes { (stripes ≡ (S.front stage.old).config.stripes) × (0 < stripes) }
    requires bare { ((S.front stage.old).start ≡ None) × ((S.front stage.old).events ≡ []) }
    requires is_desk { S.is_desk stage.old ≡ true }
    requires telling { S.is_telling stage.old ≡ true }
    requires home { AreHome (S.front stage.old).config (S.tells stage.old) }
    requires free { IsNone (S.holds stage.old) }
    requires room { HasRoom 0 (S.covers stage.old) }
    ensures stays { Stays S.lent S.fixed S.number S.is_desk S.is_telling stage.old stage.new }
    ensures front { S.front stage.new ≡ with_event
        (with_start (S.front stage.old) (Some empty_start)) Opened }
    ensures free { Same (S.holds stage.new) (S.holds stage.old) }
    ensures home { AreHome (S.front stage.old).config (S.tells stage.new) }
{
    take_all(stage, stripes);
    stage.begin::<Brand>();
    stage.note(&Event::Opened);
    give_all(alloc, stage, stripes);
}

// The stripes of a vBucket that hasn't opened.
fn stripes_of(alloc: Global, stripes: u16) -> Result<Vec<Part>, NoMemory>
    ensures { IfOk result (λ parts. parts.items ≡ bare_stripes stripes) }
{
    let mut parts = Vec::new(alloc);
    for stripe in 0..stripes {
        parts.push(Part::Stripe(FlatStripe::new(alloc, stripe)))?;
    }
    Ok(parts)
}

// The parts of a vBucket that hasn't opened, in the order of their places.
fn bare_parts(alloc: Global, stripes: u16) -> Result<Vec<Part>, NoMemory>
    requires least { 0 < stripes }
    requires most { stripes ≤ 64 }
    ensures items { IfOk result (λ parts. parts.items ≡ bare_list stripes) }
    ensures count { IfOk result (λ parts. length parts.items ≡ stripes + 2) }
    ensures stand { IfOk result (λ parts. (config : Config) (id : ℕ) → config.stripes ≡ stripes
        → StandBare part_stands config id parts.items) }
{
    let mut parts = stripes_of(alloc, stripes)?;
    parts.push(Part::Queue(FlatQueue::new(alloc)))?;
    parts.push(Part::Desk(DeskPart { persisted: 0 }))?;
    Ok(parts)
}

/// Adds the next vBucket to a world and opens it. At an error, for want of memory, it may be there and not opened.
pub(crate) fn add_opened(
    alloc: Global,
    config: &Config,
    world: &mut World<Part>,
) -> Result<(), NoMemory>
    requires fault { config_fault config.now ≡ None }
    requires config { world.old.config ≡ config.now }
    requires room { length world.old.buckets < config.now.vbuckets }
    requires home { (vb : ℕ) → vb < length world.old.buckets
        → AreHome config.now (part_in world.old vb) }
    ensures ok { OnOk result (Added config.now world.old world.new) }
    ensures sound { Sound part_stands world.new }
{
    let count = world.count();
    let Ok(parts) = bare_parts(alloc, config.stripes) else {
        return Err(NoMemory);
    };
    let Ok(()) = world.add(parts) else {
        return Err(NoMemory);
    };
    let Ok(()) = world.reserve(1, 0) else {
        return Err(NoMemory);
    };
    let mut stage = world.stage(count as u16, 0);
    open_parts(alloc, &mut stage, config.stripes);
    // what is so of this world is known by this call
    let _count = world.count();
    Ok(())
}
