// What the store's side does at the stage of a vBucket of one stripe, over a store of which nothing is known.
ghost use Rattle.std.specs.Prelude.{◌≡◌, ◌+◌, ◌≤◌, ℕ, true, false, [], length, Some, None, IfSome};
ghost use Rattle.std.specs.List.{AllByRecursion};
ghost use Rattle.ep_model.specs.declared.data.EventData.TheVariants.{Opened, ReadFailed};
ghost use Rattle.ep_model.specs.declared.data.FrontData.{FrontData};
ghost use Rattle.ep_model.specs.declared.event.PartName.{PartName};
ghost use Rattle.ep_model.specs.Front.{with_event, with_start, world_of};
ghost use Rattle.ep_model.specs.Legal.{HasAsked, IsLegal, IsNoFault};
ghost use Rattle.ep_model.specs.Limits.{IsKey, IsValue, max_value};
ghost use Rattle.hold_stage.specs.Grows.{IsNone};
ghost use Rattle.hold_stage.specs.Stays.{Stays};
ghost use Rattle.hold_stage.specs.Touches.{there};
ghost use Rattle.vb_front.specs.Opened.{unknown_start, IsLater};
ghost use Rattle.vb_front.specs.Stands.{StripeStands, QueueStands};

use super::held::restore_on;
use crate::hold::{take_queue, take_stripe};
use crate::{DeskPart, Part, StripePart};
use ckpt_manager::Queue;
use ep_model::{Event, Meta, PartName, Ticket};
use fetch_book::Outcome;
use hash_stripe::{Found, Stripe};
use hold_stage::{Beginning, Stage};

/// The start of a vBucket of which nothing but its numbers is known.
struct Unknown;

impl Beginning for Unknown {
    ghost start = { unknown_start };
}

/// All parts of a vBucket of one stripe.
#[derive(Drop)]
struct Parts {
    stripe: StripePart,
    queue: Queue,
    desk: DeskPart,
}

/// Takes all parts, unless somebody else has one.
fn take_all<S: Stage<Part = Part>>(stage: &mut S) -> Option<Parts>
    requires only { (S.front stage.old).config.stripes ≡ 1 }
    requires telling { S.is_telling stage.old ≡ true }
    requires free { IsNone (S.holds stage.old) }
    ensures stays { Stays S.lent S.fixed S.number S.is_desk S.is_telling stage.old stage.new }
    ensures front { S.front stage.new ≡ S.front stage.old }
    ensures room { (n b : ℕ) → S.covers stage.old n b → S.covers stage.new n b }
    ensures legal { IfSome result (λ _. IsLegal (S.front stage.new)) }
    ensures held { IfSome result (λ _. (p : PartName) → S.holds stage.new p
        ≡ there (S.front stage.old).config p) }
    ensures stripe { IfSome result (λ x. StripeStands (S.front stage.new) 0 x.stripe) }
    ensures queue { IfSome result (λ x. QueueStands (S.front stage.new) x.queue) }
    ensures desk { IfSome result (λ x. x.desk.persisted
        ≡ (world_of (S.front stage.new)).persisted) }
{
    let stripe = match take_stripe(stage, 0) {
        Ok(stripe) => stripe,
        Err(_) => return None,
    };
    let queue = match take_queue(stage) {
        Ok(queue) => queue,
        Err(_) => return None,
    };
    match stage.take(PartName::Desk) {
        Ok(Part::Desk(desk)) => Some(Parts {
            stripe,
            queue,
            desk,
        }),
        Ok(_) => unreachable!(),
        Err(_) => None,
    }
}

/// Gives all parts back.
fn give_all<S: Stage<Part = Part>>(stage: &mut S, parts: Parts)
    requires only { (S.front stage.old).config.stripes ≡ 1 }
    requires held { (p : PartName) → S.holds stage.old p ≡ there (S.front stage.old).config p }
    requires stripe { StripeStands (S.front stage.old) 0 parts.stripe }
    requires queue { QueueStands (S.front stage.old) parts.queue }
    requires desk { parts.desk.persisted ≡ (world_of (S.front stage.old)).persisted }
    ensures stays { Stays S.lent S.fixed S.number S.is_desk S.is_telling stage.old stage.new }
    ensures front { S.front stage.new ≡ S.front stage.old }
    ensures room { (n b : ℕ) → S.covers stage.old n b → S.covers stage.new n b }
    ensures free { IsNone (S.holds stage.new) }
{
    let Parts {
        stripe,
        queue,
        desk,
    } = parts;
    stage.give(PartName::Desk, Part::Desk(desk));
    stage.give(PartName::Queue, Part::Queue(queue));
    stage.give(PartName::Stripe(0), Part::Stripe(stripe));
}

/// Opens a vBucket in whose history nothing happened, and answers whether it did. Where it did not, parts may be out.
pub fn open_at<S: Stage<Part = Part>>(stage: &mut S) -> bool
    requires only { (S.front stage.old).config.stripes ≡ 1 }
    requires bare { ((S.front stage.old).start ≡ None) × ((S.front stage.old).events ≡ []) }
    requires telling { S.is_telling stage.old ≡ true }
    requires desk { S.is_desk stage.old ≡ true }
    requires free { IsNone (S.holds stage.old) }
    requires room { S.covers stage.old 1 0 }
    ensures stays { Stays S.lent S.fixed S.number S.is_desk S.is_telling stage.old stage.new }
    ensures front { result ≡ true → S.front stage.new ≡ with_event
        (with_start (S.front stage.old) (Some unknown_start)) Opened }
    ensures free { result ≡ true → IsNone (S.holds stage.new) }
{
    let Some(mut parts) = take_all(stage) else {
        return false;
    };
    stage.begin::<Unknown>();
    stage.note(&Event::Opened);
    parts.stripe.table.set_opened();
    parts.queue.set_opened();
    give_all(stage, parts);
    true
}

/// Tells that all is stored, where less is known to be. It answers whether all parts were there and the vBucket had opened.
/// Where not, parts may be out.
pub fn persist_at<S: Stage<Part = Part>>(stage: &mut S) -> bool
    requires only { (S.front stage.old).config.stripes ≡ 1 }
    requires telling { S.is_telling stage.old ≡ true }
    requires desk { S.is_desk stage.old ≡ true }
    requires free { IsNone (S.holds stage.old) }
    requires room { S.covers stage.old 1 0 }
    ensures stays { Stays S.lent S.fixed S.number S.is_desk S.is_telling stage.old stage.new }
    ensures later { result ≡ true → IsLater (S.front stage.old) (S.front stage.new) }
    ensures free { result ≡ true → IsNone (S.holds stage.new) }
{
    let Some(mut parts) = take_all(stage) else {
        return false;
    };
    if !parts.queue.is_opened() {
        return false;
    }
    let number = parts.queue.high();
    if number <= parts.queue.persisted() {
        give_all(stage, parts);
        return true;
    }
    stage.note(&Event::Persisted { number });
    parts.queue.set_persisted(number);
    parts.desk.persisted = number;
    give_all(stage, parts);
    true
}

/// Tells the stripe what is stored, where it doesn't know. It answers whether all parts were there and the vBucket had opened.
/// Where not, parts may be out.
pub fn mark_at<S: Stage<Part = Part>>(stage: &mut S) -> bool
    requires only { (S.front stage.old).config.stripes ≡ 1 }
    requires telling { S.is_telling stage.old ≡ true }
    requires free { IsNone (S.holds stage.old) }
    requires room { S.covers stage.old 1 0 }
    requires untold { (world_of (S.front stage.old)).told ≡ false }
    ensures stays { Stays S.lent S.fixed S.number S.is_desk S.is_telling stage.old stage.new }
    ensures later { result ≡ true → IsLater (S.front stage.old) (S.front stage.new) }
    ensures free { result ≡ true → IsNone (S.holds stage.new) }
{
    let Some(mut parts) = take_all(stage) else {
        return false;
    };
    if !parts.queue.is_opened() {
        return false;
    }
    let number = parts.desk.persisted;
    if number <= parts.stripe.table.marked() {
        give_all(stage, parts);
        return true;
    }
    stage.note(&Event::Marked { stripe: 0, number });
    parts.stripe.table.mark(number);
    give_all(stage, parts);
    true
}

/// Makes room for a value of this length, for which stored documents are ejected. It answers whether all parts were there.
pub fn eject_at<S: Stage<Part = Part>>(stage: &mut S, len: u32) -> bool
    requires only { (S.front stage.old).config.stripes ≡ 1 }
    requires telling { S.is_telling stage.old ≡ true }
    requires free { IsNone (S.holds stage.old) }
    requires len { len ≤ max_value }
    ensures stays { Stays S.lent S.fixed S.number S.is_desk S.is_telling stage.old stage.new }
    ensures front { S.front stage.new ≡ S.front stage.old }
    ensures free { result ≡ true → IsNone (S.holds stage.new) }
{
    let Some(mut parts) = take_all(stage) else {
        return false;
    };
    // what is so of every stripe is known here by this call
    let _free = parts.stripe.table.free();
    let _made = parts.stripe.table.room_for(b"other", len);
    give_all(stage, parts);
    true
}

/// What memory and the queue tell of what is stored.
#[derive(Drop)]
pub struct Told {
    pub found: [Option<Meta>; 8],
    pub pinned: u32,
    pub marked: u64,
    pub high: u64,
    pub used: u32,
}

/// The metadata of the eight keys' documents that are in memory.
fn found_in(table: &Stripe) -> [Option<Meta>; 8] {
    let mut found = [None; 8];
    for key in 0..8u8 {
        if let Found::Resident(meta) = table.find(&[key]) {
            found[usize::from(key % 8)] = Some(meta);
        }
    }
    found
}

/// Looks at all parts, which are given back as they were.
pub fn look_at<S: Stage<Part = Part>>(stage: &mut S, key: u8) -> Option<Told>
    requires only { (S.front stage.old).config.stripes ≡ 1 }
    requires telling { S.is_telling stage.old ≡ true }
    requires free { IsNone (S.holds stage.old) }
    ensures stays { Stays S.lent S.fixed S.number S.is_desk S.is_telling stage.old stage.new }
    ensures front { S.front stage.new ≡ S.front stage.old }
    ensures free { IfSome result (λ _. IsNone (S.holds stage.new)) }
{
    let Some(parts) = take_all(stage) else {
        return None;
    };
    let told = Told {
        found: found_in(&parts.stripe.table),
        pinned: parts.stripe.table.pinned(&[key]),
        marked: parts.stripe.table.marked(),
        high: parts.queue.high(),
        used: parts.stripe.book.used(),
    };
    give_all(stage, parts);
    Some(told)
}

/// Ends a read at its place: the stored document is put back where there is one and room for it. It answers whether the
/// place was there, and whether memory lacked the document.
fn settle(
    part: &mut StripePart,
    ticket: Ticket,
    key: &[u8],
    stored: Option<Meta>,
    value: &[u8],
) -> bool
    requires only { part.old.table.stripes ≡ 1 }
    requires first { part.old.table.index ≡ 0 }
    requires key { IsKey key.now }
    requires value { IsValue value.now }
    ensures { (f : FrontData) → (world_of f).told ≡ false → StripeStands f 0 part.old
        → StripeStands f 0 part.new }
{
    let Some(meta) = stored else {
        return part.book.settle(ticket, Outcome::Absent);
    };
    if meta.deleted || meta.len as usize != value.len() {
        return false;
    }
    match restore_on(&mut part.table, key, meta, value) {
        None => false,
        Some(true) => part.book.settle(ticket, Outcome::Merged),
        Some(false) => {
            let blocks = meta.len.div_ceil(128).wrapping_add(1);
            part.book.settle(ticket, Outcome::NoRoom { blocks })
        }
    }
}

/// Ends a read of the store with what it holds, which needs no event. It answers whether it did.
pub fn merge_at<S: Stage<Part = Part>>(
    stage: &mut S,
    ticket: Ticket,
    key: &[u8],
    stored: Option<Meta>,
    value: &[u8],
) -> bool
    requires only { (S.front stage.old).config.stripes ≡ 1 }
    requires telling { S.is_telling stage.old ≡ true }
    requires free { IsNone (S.holds stage.old) }
    requires untold { (world_of (S.front stage.old)).told ≡ false }
    requires key { IsKey key.now }
    requires value { IsValue value.now }
    ensures stays { Stays S.lent S.fixed S.number S.is_desk S.is_telling stage.old stage.new }
    ensures front { S.front stage.new ≡ S.front stage.old }
    ensures free { result ≡ true → IsNone (S.holds stage.new) }
{
    let Some(mut parts) = take_all(stage) else {
        return false;
    };
    let settled = settle(&mut parts.stripe, ticket, key, stored, value);
    give_all(stage, parts);
    settled
}

/// Ends a read that failed, which is noted. It answers whether its place was there, and the only one.
pub fn fail_at<S: Stage<Part = Part>>(stage: &mut S, ticket: Ticket, fault: u64) -> bool
    requires only { (S.front stage.old).config.stripes ≡ 1 }
    requires telling { S.is_telling stage.old ≡ true }
    requires desk { S.is_desk stage.old ≡ true }
    requires free { IsNone (S.holds stage.old) }
    requires room { S.covers stage.old 1 0 }
    requires asked { HasAsked (S.front stage.old).events ticket }
    requires once { AllByRecursion (IsNoFault fault) (S.front stage.old).events }
    requires untold { (world_of (S.front stage.old)).told ≡ false }
    ensures stays { Stays S.lent S.fixed S.number S.is_desk S.is_telling stage.old stage.new }
    ensures front { result ≡ true → S.front stage.new
        ≡ with_event (S.front stage.old) (ReadFailed ticket fault) }
    ensures free { result ≡ true → IsNone (S.holds stage.new) }
{
    let Some(mut parts) = take_all(stage) else {
        return false;
    };
    if ticket.stripe != 0 || parts.stripe.book.used() != 1 {
        return false;
    }
    stage.note(&Event::ReadFailed { ticket, fault });
    let settled = parts.stripe.book.settle(ticket, Outcome::Failed(fault));
    give_all(stage, parts);
    settled
}
