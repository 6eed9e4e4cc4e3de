// The mutations of a vBucket that aren't persisted, in a list.
ghost use Rattle.std.specs.Prelude.{◌≡◌, length};
ghost use Rattle.ep_model.specs.Limits.{IsKey, IsValue};

use ep_model::{Meta, NoMemory, VbState};
use std::alloc::Global;
use std::marker::Model;

/// A document with a value of its own. `meta.len` is the length of `value`.
#[derive(Drop)]
pub struct Document {
    pub meta: Meta,
    pub value: Vec<u8>,
    ghost fits: { IsValue value.items },
    ghost measured: { meta.len ≡ length value.items },
}

/// A mutation: a document under its key.
#[derive(Drop)]
pub struct Item {
    pub key: Vec<u8>,
    pub document: Document,
    ghost keyed: { IsKey key.items },
}

/// The mutations of a vBucket that aren't persisted, in order, and its numbers: the greatest sequence number and CAS,
/// the sequence number up to which the store holds all, and the newest uuid. A mutation joins it by `write`.
#[derive(Drop)]
pub struct FlatQueue {
    pub(crate) items: Vec<Item>,
    pub(crate) high: u64,
    pub(crate) maxcas: u64,
    persisted: u64,
    state: VbState,
    opened: bool,
    uuid: u64,
}

impl Model for FlatQueue {
    ghost use Rattle.ep_model.specs.Plain.{IsSound};
    ghost use Rattle.flat_parts.specs.declared.data.QueueData.{QueueData};
    ghost use Rattle.flat_parts.specs.Flat.{queue_data};

    ghost Value = { QueueData };

    ghost view = { λ q. queue_data q.items.items q.high q.maxcas q.persisted q.state q.opened
        q.uuid };

    ghost invariant = { λ q. IsSound q.high q.maxcas };
}

impl Item {
    ghost use Rattle.std.specs.Prelude.{◌≡◌, IfOk};
    ghost use Rattle.ep_model.specs.Limits.{IsKey, IsValue};
    ghost use Rattle.ep_model.specs.World.{doc_from};
    ghost use Rattle.flat_parts.specs.Flat.{item_data};

    /// A mutation of these bytes. Its cost is linear in them, which it copies.
    pub fn copied(alloc: Global, key: &[u8], meta: Meta, value: &[u8]) -> Result<Item, NoMemory>
        requires key { IsKey key.now }
        requires value { IsValue value.now }
        requires len { meta.len ≡ length value.now }
        ensures { IfOk result (λ item. item_data item ≡ (key.now, doc_from meta value.now)) }
    {
        let key = key.to_vec(alloc)?;
        let value = value.to_vec(alloc)?;
        let document = Document { meta, value };
        Ok(Item { key, document })
    }
}

impl FlatQueue {
    ghost use Rattle.std.specs.Prelude.{◌≡◌, ◌<◌, [], true, false, length, Some, slice_get};
    ghost use Rattle.ep_model.specs.Mutations.{above};
    ghost use Rattle.ep_model.specs.Limits.{IsKey, IsValue};
    ghost use Rattle.ep_model.specs.Plain.{IsSound};
    ghost use Rattle.flat_parts.specs.Flat.{item_data};

    /// The queue of an active vBucket that hasn't opened, and has no document and no failovers yet. It takes no memory.
    pub fn new(alloc: Global) -> FlatQueue
        ensures { result ≡ record {
          items = [];
          high = 0;
          maxcas = 0;
          persisted = 0;
          state = VbState.Active;
          opened = false;
          uuid = 0;
        } }
    {
        FlatQueue {
            items: Vec::new(alloc),
            high: 0,
            maxcas: 0,
            persisted: 0,
            state: VbState::Active,
            opened: false,
            uuid: 0,
        }
    }

    /// Notes that the vBucket has opened.
    pub fn open(&mut self)
        ensures { self.new ≡ record self.old { opened = true } }
    {
        self.opened = true;
    }

    /// The greatest sequence number.
    pub fn high(&self) -> u64
        ensures high { result ≡ self.now.high }
        ensures sound { IsSound self.now.high self.now.maxcas }
    {
        self.high
    }

    /// The greatest CAS.
    pub fn maxcas(&self) -> u64
        ensures maxcas { result ≡ self.now.maxcas }
        ensures sound { IsSound self.now.high self.now.maxcas }
    {
        self.maxcas
    }

    /// The sequence number up to which the store holds all mutations.
    pub fn persisted(&self) -> u64
        ensures { result ≡ self.now.persisted }
    {
        self.persisted
    }

    /// The newest uuid of the vBucket's failover table, 0 where that is empty.
    pub fn uuid(&self) -> u64
        ensures { result ≡ self.now.uuid }
    {
        self.uuid
    }

    /// How many mutations aren't persisted.
    pub fn count(&self) -> usize
        ensures { result ≡ length self.now.items }
    {
        self.items.len()
    }

    /// The mutation at this index, counted from the oldest, in constant time.
    pub fn item(&self, index: usize) -> &Item
        requires { index < length self.now.items }
        ensures item { slice_get self.now.items index ≡ Some (item_data result.now) }
        ensures key { IsKey result.now.key.items }
        ensures value { IsValue result.now.document.value.items }
        ensures len { result.now.document.meta.len ≡ length result.now.document.value.items }
    {
        &self.items[index]
    }

    /// The store holds all mutations up to this number: drops those. Its cost is linear in the number of mutations.
    pub fn set_persisted(&mut self, number: u64)
        ensures { self.new
            ≡ record self.old { items = above number self.old.items; persisted = number } }
    {
        self.items.retain(|item| item.document.meta.seqno > number);
        self.persisted = number;
    }
}
