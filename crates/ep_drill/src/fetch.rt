// Values that are read back from the store for calls that wait for them.
ghost use Rattle.std.specs.Prelude.{◌≡◌, ◌+◌, ◌≤◌, true, if◌then◌else◌, length, Some, None, IsSome, IfOk, OnErr};
ghost use Rattle.ep_model.specs.declared.config.Eviction.TheVariants.{Value as ValueEviction};
ghost use Rattle.ep_model.specs.declared.event.PartName.{PartName};
ghost use Rattle.ep_model.specs.declared.event.PartName.TheVariants.{Stripe};
ghost use Rattle.ep_model.specs.Limits.{max_value, IsKey, IsValue};
ghost use Rattle.ep_model.specs.Legal.{IsLegal};
ghost use Rattle.hold_stage.specs.Touches.{there, is_stripe, same_part};
ghost use Rattle.hold_stage.specs.Stays.{Stays, KeptBut};
ghost use Rattle.hold_stage.specs.Grows.{Same, IsNone, but_this};
ghost use Rattle.kv_keeper.specs.Content.{Content};
ghost use Rattle.kv_keeper.specs.Desk.{IsSure};
ghost use Rattle.flat_parts.specs.Nodes.{first_waiting};
ghost use Rattle.ep_drill.specs.Stands.{StripeStands, DeskStands, FetchedStands};
ghost use Rattle.ep_drill.specs.Calls.{AreHome};
ghost use Rattle.hold_stage.specs.Went.{HasRoom};
ghost use Rattle.ep_drill.specs.Fetches.{found_data, fetched_data, settles, IsOldest, IsRoom, IsFoundIn, IsBack, IsRead, IsMerged, Reads, WantsRead, ReadsOldest, HasWaiting};

pub use crate::fetched::{Fetched, FoundRow, ReadFound};
use crate::hold::{take_desk, take_stripe};
use crate::part::Part;
use ep_model::limits::MAX_VALUE;
use ep_model::{Event, Meta, NoMemory, Out, PartName, Ticket};
use flat_parts::{FlatStripe, Outcome, Residency};
use hold_stage::Stage;
use kv_keeper::{Desk, Keeper, Kept};
use std::alloc::Global;

/// How a read of the store ended for the calls that wait for it.
#[derive(Clone, Copy, Debug, PartialEq, Eq)]
pub enum Merging {
    /// The value is in memory again.
    Merged,
    /// The store has no live document.
    Absent,
    /// Nobody waits any more, or the document has changed since: nothing changes.
    Stale,
    /// The store failed, which is noted.
    Failed,
    NoMemory,
}

// The oldest read that waits in a stripe: its ticket's number, a copy of its key, and room for the value. All memory
// that a read takes of its own is taken here, where no desk is in reach and before the store is asked.
fn copy_oldest(
    alloc: Global,
    part: &FlatStripe,
) -> Result<Option<(u64, Vec<u8>, Vec<u8>)>, NoMemory>
    ensures ok { IfOk result (IsOldest (first_waiting part.now.places)) }
    ensures err { OnErr result (IsSome (first_waiting part.now.places)) }
{
    match part.oldest() {
        None => Ok(None),
        Some(place) => {
            let key = place.key.to_vec(alloc)?;
            let room = Vec::with_capacity(alloc, MAX_VALUE)?;
            Ok(Some((place.number, key, room)))
        }
    }
}

// A document that was read, with its value in the room that was taken for it. What is left of that goes back.
fn row_in(mut room: Vec<u8>, meta: Meta, value: &[u8]) -> FoundRow
    requires room { IsRoom room }
    requires measured { meta.len ≡ length value.now }
    requires fits { IsValue value.now }
    ensures meta { result.meta ≡ meta }
    ensures value { result.value.items ≡ value.now }
{
    let Ok(()) = room.extend_from_slice(value) else {
        unreachable!()
    };
    room.shrink_to_fit();
    FoundRow { meta, value: room }
}

// What the store holds of a key.
fn read_found<K: Keeper>(
    alloc: Global,
    desk: &mut Desk<K>,
    key: &[u8],
    room: Vec<u8>,
    value: &mut Out,
) -> ReadFound
    requires sure { IsSure desk.old }
    requires key { IsKey key.now }
    requires room { IsRoom room }
    requires value { max_value ≤ value.old.spare + length value.old.bytes }
    ensures found { (c : Content) → desk.old.keeper.content ≡ Some c
        → IsFoundIn c key.now (found_data result) }
    ensures reads { Reads desk.old desk.new (found_data result) }
    ensures memory { WantsRead desk.old (found_data result) }
    ensures value { value.new.spare + length value.new.bytes ≡ value.old.spare
        + length value.old.bytes }
{
    value.cut(0);
    match desk.get(alloc, key, value) {
        Kept::Good(Some(meta)) => ReadFound::Row(row_in(room, meta, value.bytes())),
        Kept::Good(None) => ReadFound::Absent,
        Kept::Failed => ReadFound::Failed(desk.read_faults()),
        Kept::NoMemory => ReadFound::NoMemory,
    }
}

/// Reads the document of the oldest call that waits in a stripe: none where none waits. No part is held while the
/// store is asked. At an error memory was wanting for a copy of the key or for the value, and the store wasn't asked.
pub(crate) fn fetch_read<S: Stage<Part = Part>, K: Keeper>(
    alloc: Global,
    desk: &mut Desk<K>,
    stage: &mut S,
    stripe: u16,
    value: &mut Out,
) -> Result<Option<Fetched>, NoMemory>
    requires there { there (S.front stage.old).config (Stripe stripe) ≡ true }
    requires eviction { (S.front stage.old).config.eviction ≡ ValueEviction }
    requires sure { IsSure desk.old }
    requires desk { DeskStands (S.front stage.old) desk.old }
    requires telling { S.is_telling stage.old ≡ true }
    requires home { AreHome (S.front stage.old).config (S.tells stage.old) }
    requires free { IsNone (S.holds stage.old) }
    requires value { value.old.spare + length value.old.bytes ≡ max_value }
    ensures stays { Stays S.lent S.fixed S.number S.is_desk S.is_telling stage.old stage.new }
    ensures front { S.front stage.new ≡ S.front stage.old }
    ensures oldest { IfOk result (ReadsOldest (S.tells stage.old (Stripe stripe))) }
    ensures read { IfOk result (IsRead (S.front stage.old) stripe desk.old desk.new) }
    ensures err { OnErr result ((desk.new ≡ desk.old)
        × HasWaiting (S.tells stage.old (Stripe stripe))) }
    ensures parts { (p : PartName) → there (S.front stage.old).config p ≡ true → S.tells stage.new p
        ≡ S.tells stage.old p }
    ensures free { Same (S.holds stage.new) (S.holds stage.old) }
    ensures home { AreHome (S.front stage.old).config (S.tells stage.new) }
    ensures value { value.new.spare + length value.new.bytes ≡ max_value }
{
    let part = take_stripe(stage, stripe);
    let oldest = copy_oldest(alloc, &part);
    stage.give(PartName::Stripe(stripe), Part::Stripe(part));
    match oldest {
        Err(NoMemory) => Err(NoMemory),
        Ok(None) => Ok(None),
        Ok(Some((number, key, room))) => {
            let found = read_found(alloc, desk, &key, room, value);
            let ticket = Ticket { stripe, number };
            Ok(Some(Fetched { ticket, key, found }))
        }
    }
}

// Puts a value back that was read, where the key's node still waits for it: whether it is in memory then.
fn put_back(part: &mut FlatStripe, key: &[u8], row: FoundRow) -> bool
    ensures { IsBack part.old key.now row.meta row.value.items part.new result }
{
    match part.find(key) {
        Residency::Resident(_) => true,
        Residency::Ejected(meta) if meta == row.meta => {
            part.restore(key, row.meta, row.value);
            true
        }
        Residency::Ejected(_) | Residency::Nothing => false,
    }
}

// Notes in a stripe that is held what became of a read, and gives the stripe back.
fn settle<S: Stage<Part = Part>>(
    stage: &mut S,
    mut part: FlatStripe,
    ticket: Ticket,
    outcome: Outcome,
)
    requires held { S.holds stage.old (Stripe ticket.stripe) ≡ true }
    requires stands { StripeStands (S.front stage.old) ticket.stripe
        (settles part ticket.number outcome) }
    ensures stays { Stays S.lent S.fixed S.number S.is_desk S.is_telling stage.old stage.new }
    ensures front { S.front stage.new ≡ S.front stage.old }
    ensures held { Same (S.holds stage.new) (but_this (Stripe ticket.stripe) (S.holds stage.old)) }
    ensures tells { S.is_telling stage.old ≡ true → (p : PartName)
        → there (S.front stage.old).config p ≡ true → S.tells stage.new p
        ≡ (if same_part (Stripe ticket.stripe) p then Some
        (Part.Stripe (settles part ticket.number outcome)) else S.tells stage.old p) }
{
    part.settle(ticket.number, outcome);
    stage.give(PartName::Stripe(ticket.stripe), Part::Stripe(part));
}

/// Ends a read for whoever still waits for it. It takes no memory.
pub(crate) fn fetch_merge<S: Stage<Part = Part>>(stage: &mut S, fetched: Fetched) -> Merging
    requires there { there (S.front stage.old).config (Stripe fetched.ticket.stripe) ≡ true }
    requires eviction { (S.front stage.old).config.eviction ≡ ValueEviction }
    requires stands { FetchedStands (S.front stage.old) (fetched_data fetched) }
    requires legal { IsLegal (S.front stage.old) }
    requires is_desk { S.is_desk stage.old ≡ true }
    requires telling { S.is_telling stage.old ≡ true }
    requires home { AreHome (S.front stage.old).config (S.tells stage.old) }
    requires free { IsNone (S.holds stage.old) }
    requires room { HasRoom 0 (S.covers stage.old) }
    ensures stays { Stays S.lent S.fixed S.number S.is_desk S.is_telling stage.old stage.new }
    ensures merged { IsMerged (S.front stage.old) (S.front stage.new)
        (S.tells stage.old (Stripe fetched.ticket.stripe))
        (S.tells stage.new (Stripe fetched.ticket.stripe)) (fetched_data fetched) result }
    ensures kept { KeptBut (S.front stage.old).config (is_stripe fetched.ticket.stripe)
        (S.tells stage.old) (S.tells stage.new) }
    ensures free { Same (S.holds stage.new) (S.holds stage.old) }
    ensures home { AreHome (S.front stage.old).config (S.tells stage.new) }
{
    let Fetched { ticket, key, found } = fetched;
    let mut part = take_stripe(stage, ticket.stripe);
    if part.outcome(ticket.number).is_none() {
        stage.give(PartName::Stripe(ticket.stripe), Part::Stripe(part));
        return Merging::Stale;
    }
    match found {
        ReadFound::Row(row) => {
            if put_back(&mut part, &key, row) {
                settle(stage, part, ticket, Outcome::Merged);
                Merging::Merged
            } else {
                settle(stage, part, ticket, Outcome::Absent);
                Merging::Absent
            }
        }
        ReadFound::Absent => {
            settle(stage, part, ticket, Outcome::Absent);
            Merging::Absent
        }
        ReadFound::Failed(fault) => {
            // A failed read touches the desk too.
            let desk = take_desk(stage);
            stage.note(&Event::ReadFailed { ticket, fault });
            stage.give(PartName::Desk, Part::Desk(desk));
            settle(stage, part, ticket, Outcome::Failed(fault));
            Merging::Failed
        }
        ReadFound::NoMemory => {
            settle(stage, part, ticket, Outcome::NoMemory);
            Merging::NoMemory
        }
    }
}
