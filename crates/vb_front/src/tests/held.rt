// A vBucket's only stripe and its queue, held in one hand.
ghost use Rattle.std.specs.Prelude.{◌≡◌, ◌+◌, ◌≤◌, false, length, Some};
ghost use Rattle.ep_model.specs.declared.data.FrontData.{FrontData};
ghost use Rattle.ep_model.specs.Calls.{written_key};
ghost use Rattle.ep_model.specs.Front.{world_of};
ghost use Rattle.ep_model.specs.History.{call_data};
ghost use Rattle.ep_model.specs.Limits.{IsKey, IsMoment, IsValue, IsWithin};
ghost use Rattle.vb_front.specs.Priors.{key_in};
ghost use Rattle.vb_front.specs.Stands.{TableStands};

use super::config;
use crate::{Step, StripePart, read, write};
use ckpt_manager::Queue;
use ep_model::{Call, Eviction, Meta, Out, Ticket};
use fetch_book::Book;
use hash_stripe::{Found, Stripe};
use std::alloc::Global;

#[derive(Drop)]
pub struct Held {
    pub part: StripePart,
    pub queue: Queue,
    pub value: Out,
    ghost only: { (part.table.stripes ≡ 1) × (part.table.index ≡ 0) },
    ghost room: { 1048576 ≤ value.spare + length value.bytes },
}

/// The parts of a vBucket that has opened, nothing of which is stored.
pub fn open_parts(
    alloc: Global,
    eviction: Eviction,
    blocks: u32,
    ckpt_blocks: u32,
) -> Option<Held> {
    let config = config(eviction, blocks, ckpt_blocks);
    if config.fault().is_some() {
        return None;
    }
    let (Ok(table), Ok(book)) = (Stripe::new(alloc, 0, &config), Book::new(alloc, 0)) else {
        return None;
    };
    let (Ok(queue), Ok(value)) = (Queue::new(alloc, &config), Out::new(alloc, 1_048_576)) else {
        return None;
    };
    let mut part = StripePart { table, book };
    part.table.set_opened();
    Some(Held { part, queue, value })
}

/// A Get on the only stripe of a vBucket.
fn get_on(
    part: &mut StripePart,
    key: &[u8],
    now: u64,
    prior: Option<Ticket>,
    value: &mut Out,
) -> Step
    requires only { part.old.table.stripes ≡ 1 }
    requires first { part.old.table.index ≡ 0 }
    requires key { IsKey key.now }
    requires room { 1048576 ≤ value.old.spare + length value.old.bytes }
    ensures only { part.new.table.stripes ≡ 1 }
    ensures first { part.new.table.index ≡ 0 }
    ensures room { value.new.spare + length value.new.bytes ≡ value.old.spare
        + length value.old.bytes }
{
    read(part, &Call::Get { key }, now, prior, value)
}

/// A call that may put a document on the only stripe of a vBucket.
fn write_on(
    part: &mut StripePart,
    queue: &mut Queue,
    call: &Call,
    now: u64,
    prior: Option<Ticket>,
    value: &mut Out,
) -> Step
    requires only { part.old.table.stripes ≡ 1 }
    requires first { part.old.table.index ≡ 0 }
    requires keyed { written_key (call_data call.now) ≡ Some (key_in (call_data call.now)) }
    requires within { IsWithin (call_data call.now) }
    requires moment { IsMoment now }
    requires room { 1048576 ≤ value.old.spare + length value.old.bytes }
    ensures only { part.new.table.stripes ≡ 1 }
    ensures first { part.new.table.index ≡ 0 }
    ensures room { value.new.spare + length value.new.bytes ≡ value.old.spare
        + length value.old.bytes }
{
    write(part, queue, call, now, prior, value)
}

/// Puts a stored document back on the only stripe of a vBucket. It answers whether there was room, and nothing where memory
/// doesn't lack the document.
pub fn restore_on(table: &mut Stripe, key: &[u8], meta: Meta, value: &[u8]) -> Option<bool>
    requires only { table.old.stripes ≡ 1 }
    requires first { table.old.index ≡ 0 }
    requires key { IsKey key.now }
    requires value { IsValue value.now }
    requires len { meta.len ≡ length value.now }
    ensures only { table.new.stripes ≡ 1 }
    ensures first { table.new.index ≡ 0 }
    ensures stands { (f : FrontData) → (world_of f).told ≡ false → TableStands f 0 table.old
        → TableStands f 0 table.new }
{
    // what is so of every stripe is known here by this call
    let _free = table.free();
    match table.find(key) {
        Found::Nothing => {}
        Found::Ejected(found) => {
            if found != meta {
                return None;
            }
        }
        Found::Resident(_) => return None,
    }
    if meta.deleted || meta.seqno > table.marked() {
        return None;
    }
    Some(table.restore(key, meta, value).is_ok())
}

impl Held {
    /// A Get.
    pub fn get(&mut self, key: &[u8], now: u64, prior: Option<Ticket>) -> Step
        requires key { IsKey key.now }
    {
        get_on(&mut self.part, key, now, prior, &mut self.value)
    }

    /// A call that may put a document.
    pub fn write(&mut self, call: &Call, now: u64, prior: Option<Ticket>) -> Step
        requires keyed { written_key (call_data call.now) ≡ Some (key_in (call_data call.now)) }
        requires within { IsWithin (call_data call.now) }
        requires moment { IsMoment now }
    {
        write_on(
            &mut self.part,
            &mut self.queue,
            call,
            now,
            prior,
            &mut self.value,
        )
    }

    /// All mutations up to this number are stored.
    pub fn mark(&mut self, number: u64) {
        if self.part.table.marked() <= number {
            self.part.table.mark(number);
        }
    }

    /// Ejects a document that is in memory and stored, and answers whether there was one.
    pub fn eject(&mut self, key: &[u8]) -> bool {
        if let Found::Resident(meta) = self.part.table.find(key) {
            if meta.seqno <= self.part.table.marked() {
                self.part.table.eject(key);
                return true;
            }
        }
        false
    }

    /// Puts a stored document back. It answers whether there was room, and nothing where memory doesn't lack the document.
    pub fn restore(&mut self, key: &[u8], meta: Meta, value: &[u8]) -> Option<bool>
        requires key { IsKey key.now }
        requires value { IsValue value.now }
        requires len { meta.len ≡ length value.now }
    {
        restore_on(&mut self.part.table, key, meta, value)
    }
}
