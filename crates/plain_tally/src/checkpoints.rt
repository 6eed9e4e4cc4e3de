// The checkpoints of a vBucket.
ghost use Rattle.std.specs.Prelude.{◌≡◌, ◌≤◌, ◌-◌, ◌^◌, ◌++◌, [], ◌∷◌, min, vec_len, vec_capacity};
ghost use Rattle.ep_model.specs.Mutations.{above};
ghost use Rattle.ep_model.specs.Checkpoints.{but_item, has_item, item_blocks};
ghost use Rattle.std.specs.List.{position_from};
ghost use Rattle.std.specs.Str.{bytes_eq};
ghost use Rattle.plain_tally.specs.declared.item.PlainItem.{PlainItem};
ghost use Rattle.plain_tally.specs.Items.{item_data, items_data, kept_cost, other_cost};

use crate::item::PlainItem;
use crate::world::PlainWorld;
use ep_model::{Event, NoMemory};
use std::alloc::Global;
use std::marker::Model;
use std::mem;

/// Documents under different keys, the oldest first.
#[derive(Drop)]
pub struct PlainCheckpoint {
    pub(crate) id: u64,
    pub(crate) items: Vec<PlainItem>,
}

/// The checkpoints of a vBucket. Each call's cost is linear in what they hold.
#[derive(Drop)]
pub struct PlainCheckpoints {
    alloc: Global,
    closed: Vec<PlainCheckpoint>,
    last: PlainCheckpoint,
}

impl Model for PlainCheckpoints {
    ghost use Rattle.ep_model.specs.declared.data.CheckpointsData.{CheckpointsData};
    ghost use Rattle.plain_tally.specs.Items.{checkpoints_data};

    ghost Value = { CheckpointsData };

    ghost view = { λ c. checkpoints_data c.closed.items c.last };
}

// The place of the first document of the key.
fn position_of(items: &[PlainItem], key: &[u8]) -> Option<usize>
    ensures { result ≡ position_from (λ (item : PlainItem). bytes_eq item.key.items key.now) 0
        items.now }
{
    items.iter().position(|item| item.key.as_slice() == key)
}

// Whether a document of the key is among these.
fn has(items: &[PlainItem], key: &[u8]) -> bool
    ensures { result ≡ has_item key.now (items_data items.now) }
{
    position_of(items, key).is_some()
}

// Drops the documents of the key.
pub(crate) fn forget(items: &mut Vec<PlainItem>, key: &[u8])
    ensures items { items_data items.new.items ≡ but_item key.now (items_data items.old.items) }
    ensures len { vec_len items.new ≤ vec_len items.old }
    ensures capacity { vec_capacity items.new ≡ vec_capacity items.old }
{
    items.retain(|item| item.key.as_slice() != key);
}

// The blocks of a document, if it is above a number.
fn cost(item: &PlainItem, number: u64) -> u64
    ensures { result ≡ kept_cost number item.now }
{
    if item.seqno > number {
        item.blocks()
    } else {
        0
    }
}

// The same, but for a key's, which count for nothing.
fn other_cost(item: &PlainItem, number: u64, key: &[u8]) -> u64
    ensures { result ≡ other_cost number key.now item.now }
{
    if item.key.as_slice() != key {
        cost(item, number)
    } else {
        0
    }
}

// The blocks of the documents of other keys above a number, at most 2^64 - 1.
fn blocks_but(items: &[PlainItem], number: u64, key: &[u8]) -> u64
    ensures { result ≡ min (item_blocks (above number (but_item key.now (items_data items.now))))
        (2 ^ 64 - 1) }
{
    let mut total = 0u64;
    for index in 0..items.len() {
        total = total.saturating_add(other_cost(&items[index], number, key));
    }
    total
}

// The same with this document in place of its key's.
fn blocks_open(items: &[PlainItem], number: u64, item: &PlainItem) -> u64
    ensures { result ≡ min (item_blocks (above number
        (but_item item.now.key.items (items_data items.now) ++ item_data item.now ∷ [])))
        (2 ^ 64 - 1) }
{
    cost(item, number).saturating_add(blocks_but(items, number, &item.key))
}

// The blocks of the documents above a number, at most 2^64 - 1.
fn blocks_above(items: &[PlainItem], number: u64) -> u64
    ensures { result ≡ min (item_blocks (above number (items_data items.now))) (2 ^ 64 - 1) }
{
    let mut total = 0u64;
    for index in 0..items.len() {
        total = total.saturating_add(cost(&items[index], number));
    }
    total
}

impl PlainCheckpoints {
    ghost use Rattle.std.specs.Prelude.{◌≡◌, ◌<◌, ◌-◌, ◌+◌, ◌^◌, min, OnOk, OnErr};
    ghost use Rattle.ep_model.specs.Checkpoints.{first_checkpoints, closed_at, queued, items_above, item_blocks};
    ghost use Rattle.std.specs.Option.{option_map};
    ghost use Rattle.ep_model.specs.Checkpoints.{cut_after};
    ghost use Rattle.ep_model.specs.History.{event_data};
    ghost use Rattle.ep_model.specs.Mutations.{mutation_of};
    ghost use Rattle.plain_tally.specs.Items.{item_data};

    /// The first checkpoint, which is empty. It takes no memory.
    pub fn new(alloc: Global) -> PlainCheckpoints
        ensures { result ≡ first_checkpoints }
    {
        PlainCheckpoints {
            alloc,
            closed: Vec::new(alloc),
            last: PlainCheckpoint {
                id: 1,
                items: Vec::new(alloc),
            },
        }
    }

    /// The open checkpoint's id.
    pub fn id(&self) -> u64
        ensures { result ≡ self.now.last.id }
    {
        self.last.id
    }

    /// What is stored closes the open checkpoint, if it isn't empty.
    pub fn persist(&mut self) -> Result<(), NoMemory>
        requires { self.old.last.id + 1 < 2 ^ 64 }
        ensures ok { OnOk result (self.new ≡ closed_at self.old.last.items self.old) }
        ensures err { OnErr result (self.new ≡ self.old) }
    {
        if self.last.items.is_empty() {
            return Ok(());
        }
        self.closed.reserve(1)?;
        let next = PlainCheckpoint {
            id: self.last.id + 1,
            items: Vec::new(self.alloc),
        };
        let full = mem::replace(&mut self.last, next);
        self.closed.push_reserved(full);
        Ok(())
    }

    /// Puts a mutation into the open checkpoint, in place of an older one of its key. A checkpoint that has `most`
    /// keys, and not this one, is closed first.
    pub fn queue(&mut self, most: u32, item: PlainItem) -> Result<(), NoMemory>
        requires { self.old.last.id + 1 < 2 ^ 64 }
        ensures ok { OnOk result (self.new ≡ queued most (item_data item) self.old) }
        ensures err { OnErr result (self.new ≡ self.old) }
    {
        if has(&self.last.items, &item.key) {
            self.last.items.reserve(1)?;
            forget(&mut self.last.items, &item.key);
            self.last.items.push_reserved(item);
        } else if self.last.items.len() < most as usize {
            self.last.items.push(item)?;
        } else {
            let mut items = Vec::new(self.alloc);
            items.push(item)?;
            self.closed.reserve(1)?;
            let next = PlainCheckpoint {
                id: self.last.id + 1,
                items,
            };
            let full = mem::replace(&mut self.last, next);
            self.closed.push_reserved(full);
        }
        Ok(())
    }

    /// Follows an event of a vBucket that puts this, if anything. What is stored closes the open checkpoint.
    pub fn follow(
        &mut self,
        most: u32,
        world: &PlainWorld,
        event: &Event,
        puts: Option<PlainItem>,
    ) -> Result<(), NoMemory>
        requires id { self.old.last.id + 1 < 2 ^ 64 }
        requires puts { option_map item_data puts ≡ mutation_of world.now (event_data event.now) }
        ensures ok { OnOk result (self.new ≡ cut_after most world.now self.old
            (event_data event.now)) }
        ensures err { OnErr result (self.new ≡ self.old) }
    {
        if let Event::Persisted { .. } = *event {
            return self.persist();
        }
        match puts {
            Some(item) => self.queue(most, item),
            None => Ok(()),
        }
    }

    /// The blocks of what is kept where all mutations up to a number are stored, at most 2^64 - 1.
    pub fn kept_blocks(&self, number: u64) -> u64
        ensures { result ≡ min (item_blocks (items_above number self.now)) (2 ^ 64 - 1) }
    {
        let mut total = blocks_above(&self.last.items, number);
        for index in 0..self.closed.len() {
            total = total.saturating_add(blocks_above(&self.closed[index].items, number));
        }
        total
    }

    /// The blocks of what would be kept with this mutation queued too, where all mutations up to a number are stored and
    /// checkpoints have at most `most` keys. They are at most 2^64 - 1.
    pub fn blocks_with(&self, most: u32, number: u64, item: &PlainItem) -> u64
        ensures { result ≡ min (item_blocks (items_above number
            (queued most (item_data item.now) self.now))) (2 ^ 64 - 1) }
    {
        let mut total = blocks_open(&self.last.items, number, item);
        for index in 0..self.closed.len() {
            total = total.saturating_add(blocks_above(&self.closed[index].items, number));
        }
        total
    }
}
