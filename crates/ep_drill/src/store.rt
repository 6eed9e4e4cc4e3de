// What the store's side does to the parts of a vBucket: batches, marks and the pager.
ghost use Rattle.std.specs.Prelude.{◌≡◌, ◌⊎◌, ◌+◌, ◌-◌, ◌^◌, ◌<◌, ◌≤◌, ◌||◌, ℕ, true, false, if◌then◌else◌, [], length, min, Some, None, IfSome, IfOk, OnOk, OnErr};
ghost use Rattle.ep_model.specs.declared.data.EventData.TheVariants.{Persisted as PersistedData};
ghost use Rattle.ep_model.specs.declared.event.PartName.{PartName};
ghost use Rattle.ep_model.specs.declared.event.PartName.TheVariants.{Stripe, Queue, Desk as DeskName};
ghost use Rattle.ep_model.specs.Front.{world_of, with_event};
ghost use Rattle.ep_model.specs.Legal.{May, IsLegal};
ghost use Rattle.ep_model.specs.World.{Docs};
ghost use Rattle.hold_stage.specs.Touches.{there, is_stripe, is_queue, is_desk};
ghost use Rattle.hold_stage.specs.Stays.{Stays, KeptBut};
ghost use Rattle.hold_stage.specs.Grows.{Same, IsNone};
ghost use Rattle.ep_model.specs.Mutations.{laid_on};
ghost use Rattle.kv_keeper.specs.Batch.{laid, AreDistinct, empty_batch};
ghost use Rattle.kv_keeper.specs.declared.data.DeskData.{DeskData};
ghost use Rattle.kv_keeper.specs.Desk.{IsSure};
ghost use Rattle.flat_parts.specs.Steps.{page_step};
ghost use Rattle.ep_drill.specs.Stands.{DeskStands, BatchStands};
ghost use Rattle.ep_drill.specs.Calls.{AreHome};
ghost use Rattle.hold_stage.specs.Went.{HasRoom};
ghost use Rattle.ep_drill.specs.Parts.{Becomes};
ghost use Rattle.ep_drill.specs.StoreSide.{state_for, IsPaged, IsTaken, IsFlushed};

use crate::hold::{take_desk, take_queue, take_stripe};
use crate::part::Part;
use ep_model::{Event, NoMemory, PartName};
use flat_parts::FlatQueue;
use hold_stage::Stage;
use kv_keeper::{Batch, Desk, Keeper, Kept, StoreState};
use std::alloc::Global;

/// The version of a store's layout.
const VERSION: u32 = 1;

/// What the pager did in a stripe.
#[derive(Clone, Copy, Debug, PartialEq, Eq)]
pub struct Paged {
    /// The blocks that are left, at most 2^64 - 1.
    pub used: u64,
    /// How many values were ejected.
    pub ejected: u64,
}

/// How a commit went.
#[derive(Clone, Copy, Debug, PartialEq, Eq)]
pub enum Flushed {
    /// It was done, and it was noted that the store holds all mutations up to this number.
    Stored(u64),
    /// The store failed.
    Failed,
    NoMemory,
}

/// Ejects all values of a stripe that are stored. It takes no memory.
pub(crate) fn page_once<S: Stage<Part = Part>>(stage: &mut S, stripe: u16) -> Paged
    requires there { there (S.front stage.old).config (Stripe stripe) ≡ true }
    requires telling { S.is_telling stage.old ≡ true }
    requires home { AreHome (S.front stage.old).config (S.tells stage.old) }
    requires free { IsNone (S.holds stage.old) }
    ensures stays { Stays S.lent S.fixed S.number S.is_desk S.is_telling stage.old stage.new }
    ensures front { S.front stage.new ≡ S.front stage.old }
    ensures paged { IsPaged (S.tells stage.old (Stripe stripe)) (S.tells stage.new (Stripe stripe))
        result }
    ensures kept { KeptBut (S.front stage.old).config (is_stripe stripe) (S.tells stage.old)
        (S.tells stage.new) }
    ensures free { Same (S.holds stage.new) (S.holds stage.old) }
    ensures home { AreHome (S.front stage.old).config (S.tells stage.new) }
{
    let mut part = take_stripe(stage, stripe);
    let (used, ejected) = part.page();
    stage.give(PartName::Stripe(stripe), Part::Stripe(part));
    Paged { used, ejected }
}

// Puts a queue's mutations into a batch, each in place of an earlier one of its key.
fn fill(queue: &FlatQueue, batch: &mut Batch) -> Result<(), NoMemory>
    requires { AreDistinct batch.old.rows }
    ensures distinct { AreDistinct batch.new.rows }
    ensures laid { OnOk result ((docs : Docs) → laid batch.new.rows docs
        ≡ laid_on (laid batch.old.rows docs) queue.now.items) }
    ensures to { batch.new.to ≡ batch.old.to }
    ensures maxcas { batch.new.maxcas ≡ batch.old.maxcas }
{
    for index in 0..queue.count() {
        let item = queue.item(index);
        let document = &item.document;
        batch.add(&item.key, document.meta, &document.value)?;
    }
    Ok(())
}

// The batch up to the last mutation of a queue, with no rows yet.
fn batch_of(alloc: Global, queue: &FlatQueue) -> Batch
    ensures { result ≡ empty_batch queue.now.high queue.now.maxcas }
{
    Batch::new(alloc, queue.high(), queue.maxcas())
}

// The numbers under which a batch is stored.
fn state_of(batch: &Batch) -> StoreState
    ensures { result ≡ state_for batch.now }
{
    StoreState {
        version: VERSION,
        high: batch.to(),
        maxcas: batch.maxcas(),
    }
}

/// Copies what isn't stored yet into a batch: none where all is stored. It has no desk in reach, so that whether memory
/// is wanting for the copies isn't read off one.
pub(crate) fn take_batch<S: Stage<Part = Part>>(
    alloc: Global,
    stage: &mut S,
) -> Result<Option<Batch>, NoMemory>
    requires telling { S.is_telling stage.old ≡ true }
    requires home { AreHome (S.front stage.old).config (S.tells stage.old) }
    requires free { IsNone (S.holds stage.old) }
    ensures stays { Stays S.lent S.fixed S.number S.is_desk S.is_telling stage.old stage.new }
    ensures front { S.front stage.new ≡ S.front stage.old }
    ensures taken { IfOk result (λ batch. (desk : DeskData) → DeskStands (S.front stage.old) desk
        → IsTaken (S.front stage.old) desk.stored batch) }
    ensures err { OnErr result ((world_of (S.front stage.old)).high
        ≡ (world_of (S.front stage.old)).persisted → ⊥) }
    ensures parts { (p : PartName) → there (S.front stage.old).config p ≡ true → S.tells stage.new p
        ≡ S.tells stage.old p }
    ensures free { Same (S.holds stage.new) (S.holds stage.old) }
    ensures home { AreHome (S.front stage.old).config (S.tells stage.new) }
{
    let queue = take_queue(stage);
    if queue.high() == queue.persisted() {
        stage.give(PartName::Queue, Part::Queue(queue));
        return Ok(None);
    }
    let mut batch = batch_of(alloc, &queue);
    let filled = fill(&queue, &mut batch);
    stage.give(PartName::Queue, Part::Queue(queue));
    match filled {
        Ok(()) => Ok(Some(batch)),
        Err(NoMemory) => Err(NoMemory),
    }
}

/// Commits a batch, and notes that where it is done.
pub(crate) fn commit_batch<S: Stage<Part = Part>, K: Keeper>(
    alloc: Global,
    desk: &mut Desk<K>,
    stage: &mut S,
    batch: &Batch,
) -> Flushed
    requires sure { IsSure desk.old }
    requires desk { DeskStands (S.front stage.old) desk.old }
    requires batch { BatchStands (S.front stage.old) desk.old.stored batch.now }
    requires legal { IsLegal (S.front stage.old) }
    requires is_desk { S.is_desk stage.old ≡ true }
    requires telling { S.is_telling stage.old ≡ true }
    requires home { AreHome (S.front stage.old).config (S.tells stage.old) }
    requires free { IsNone (S.holds stage.old) }
    requires room { HasRoom 0 (S.covers stage.old) }
    ensures stays { Stays S.lent S.fixed S.number S.is_desk S.is_telling stage.old stage.new }
    ensures flushed { IsFlushed (S.front stage.old) (S.front stage.new) desk.old desk.new batch.now
        result }
    ensures kept { KeptBut (S.front stage.old).config
        (λ p. is_queue p || is_desk p) (S.tells stage.old) (S.tells stage.new) }
    ensures free { Same (S.holds stage.new) (S.holds stage.old) }
    ensures home { AreHome (S.front stage.old).config (S.tells stage.new) }
{
    let number = batch.to();
    let state = state_of(batch);
    match desk.commit(alloc, batch, &state) {
        Kept::Good(()) => {}
        Kept::Failed => return Flushed::Failed,
        Kept::NoMemory => return Flushed::NoMemory,
    }
    let mut queue = take_queue(stage);
    let mut part = take_desk(stage);
    stage.note(&Event::Persisted { number });
    queue.set_persisted(number);
    part.persisted = number;
    desk.set_noted();
    stage.give(PartName::Desk, Part::Desk(part));
    stage.give(PartName::Queue, Part::Queue(queue));
    Flushed::Stored(number)
}
