// The items of a vBucket's checkpoints.
ghost use Rattle.std.specs.Prelude.{◌≡◌, ◌+◌, ◌<◌, ◌≤◌, ◌++◌, [], ◌∷◌, None, length, All, IsSome, IsErr, IsOk, IfOk, IfErr, OnOk, OnErr, ◌↔◌};
ghost use Rattle.std.specs.List.{find};
ghost use Rattle.std.specs.Option.{option_map};
ghost use Rattle.ep_model.specs.Limits.{IsKey, IsValue};
ghost use Rattle.ep_model.specs.World.{blocks};

use crate::bytes::{append, put};
use crate::item::Item;
use crate::search::{count_without, find_from, place, take, up_to};
use ep_model::{Meta, NoMemory, Out};
use std::alloc::Global;
use std::collections::VecDeque;
use std::marker::Model;
use value_pool::{Pool, Short, blocks};

/// The items of a vBucket's checkpoints in the order of their numbers, over a fixed number of blocks. `new` takes all
/// memory. Each item has a key and a value within their limits, whose length its metadata tell, and the blocks that no
/// item has are free.
#[derive(Drop)]
pub struct Items {
    pool: Pool,
    items: VecDeque<Item>,
    // So many items, the first ones, are of closed checkpoints.
    closed: usize,
}

impl Model for Items {
    ghost use Rattle.std.specs.VecDeque.{deque_capacity};
    ghost use Rattle.ckpt_items.specs.declared.data.ItemsData.{ItemsData};
    ghost use Rattle.ckpt_items.specs.Stored.{items_data, IsStored};

    ghost Value = { ItemsData };

    ghost view = { λ i. items_data i.pool i.items.items i.closed };

    ghost invariant = { λ i. IsStored i.pool i.items.items i.closed (deque_capacity i.items) };
}

impl Items {
    ghost use Rattle.std.specs.Prelude.{◌≡◌, ◌+◌, ◌<◌, ◌≤◌, ◌++◌, [], ◌∷◌, None, length, All, IsSome, IsErr, IsOk, IfOk, IfErr, OnOk, OnErr, ◌↔◌};
    ghost use Rattle.std.specs.List.{find};
    ghost use Rattle.std.specs.Option.{option_map};
    ghost use Rattle.ep_model.specs.Limits.{IsKey, IsValue};
    ghost use Rattle.ep_model.specs.World.{blocks};
    ghost use Rattle.ckpt_items.specs.declared.data.ItemData.{ItemData};
    ghost use Rattle.ckpt_items.specs.Items.{all_items, blocks_of, free_of, IsFit, AreRising, is_of, is_above, has_number, number_of, without_number, key_of, value_of, item_at};

    /// No items, over so many blocks. Its cost is linear in their number.
    pub fn new(alloc: Global, blocks: u32) -> Result<Items, NoMemory>
        requires { blocks ≤ 16777216 }
        ensures { IfOk result (λ items.
            items ≡ record { closed = []; last = []; blocks = blocks }) }
    {
        let Ok(pool) = Pool::new(alloc, blocks) else {
            return Err(NoMemory);
        };
        Ok(Items {
            pool,
            items: VecDeque::with_capacity(alloc, blocks as usize)?,
            closed: 0,
        })
    }

    /// The number of the open checkpoint's item of this key. Its cost is linear in the open checkpoint's items.
    pub fn find_open(&self, key: &[u8]) -> Option<u64>
        ensures { result ≡ number_of (find (is_of key.now) self.now.last) }
    {
        find_from(&self.items, &self.pool, self.closed, key)
    }

    /// Puts an item last into the open checkpoint. Its cost is linear in the bytes of its key and value.
    ///
    /// # Errors
    /// [`Short`] exactly where fewer blocks are free than the item needs; nothing changes.
    pub fn push(&mut self, key: &[u8], meta: Meta, value: &[u8]) -> Result<(), Short>
        requires key { IsKey key.now }
        requires value { IsValue value.now }
        requires len { meta.len ≡ length value.now }
        requires above { All (λ (i : ItemData). i.meta.seqno < meta.seqno) (all_items self.old) }
        requires absent { find (is_of key.now) self.old.last ≡ None }
        ensures ok { OnOk result (self.new ≡ record self.old {
          last = self.old.last ++ record { key = key.now; meta = meta; value = value.now } ∷ [];
        }) }
        ensures short { IsErr result ↔ (free_of self.old < blocks (length key.now)
            + blocks (length value.now)) }
        ensures told { IfErr result (λ s. (s.free ≡ free_of self.old)
            × (s.need ≡ blocks (length key.now) + blocks (length value.now))) }
        ensures err { OnErr result (self.new ≡ self.old) }
    {
        let need = blocks(key.len() as u32) + blocks(value.len() as u32);
        let free = self.pool.free();
        if free < need {
            return Err(Short { free, need });
        }
        let key = put(&mut self.pool, key);
        let value = put(&mut self.pool, value);
        self.items.push_back_reserved(Item { key, value, meta });
        Ok(())
    }

    /// Drops the item of this number, and frees its blocks. Its cost is linear in these, logarithmic in the items, and
    /// linear in the items before it or behind it, whichever are fewer.
    pub fn drop_item(&mut self, seqno: u64)
        requires { IsSome (find (has_number seqno) (all_items self.old)) }
        ensures { self.new ≡ record self.old {
          closed = without_number self.old.closed seqno;
          last = without_number self.old.last seqno;
        } }
    {
        match place(&self.items, seqno) {
            Some(index) => {
                let Item {
                    key,
                    value,
                    meta: _,
                } = take(&mut self.items, index);
                self.closed = count_without(self.closed, index);
                self.pool.take_back(key);
                self.pool.take_back(value);
            }
            None => unreachable!(),
        }
    }

    /// Closes the open checkpoint, in constant time: the next one is empty.
    pub fn close_open(&mut self)
        ensures { self.new ≡ record self.old { closed = all_items self.old; last = [] } }
    {
        self.closed = self.items.len();
    }

    /// The least number above this one, in time logarithmic in the items.
    pub fn after(&self, seqno: u64) -> Option<u64>
        ensures { result ≡ number_of (find (is_above seqno) (all_items self.now)) }
    {
        let index = up_to(&self.items, seqno);
        if index < self.items.len() {
            Some(self.items[index].meta.seqno)
        } else {
            None
        }
    }

    /// The metadata of the item with this number, in time logarithmic in the items.
    pub fn meta(&self, seqno: u64) -> Option<Meta>
        ensures { result ≡ option_map (λ (i : ItemData). i.meta)
            (find (has_number seqno) (all_items self.now)) }
    {
        match place(&self.items, seqno) {
            Some(index) => Some(self.items[index].meta),
            None => None,
        }
    }

    /// Appends the key of the item with this number, and nothing where there is none. Its cost is linear in the key, and
    /// logarithmic in the items.
    pub fn key_to(&self, seqno: u64, out: &mut Out)
        requires { length (key_of (item_at self.now seqno)) ≤ out.old.spare }
        ensures bytes { out.new.bytes ≡ out.old.bytes ++ key_of (item_at self.now seqno) }
        ensures spare { out.new.spare + length (key_of (item_at self.now seqno)) ≡ out.old.spare }
    {
        match place(&self.items, seqno) {
            Some(index) => append(&self.pool, &self.items[index].key, out),
            None => {}
        }
    }

    /// Appends the value of the item with this number, and nothing where there is none. Its cost is linear in the value,
    /// and logarithmic in the items.
    pub fn value_to(&self, seqno: u64, out: &mut Out)
        requires { length (value_of (item_at self.now seqno)) ≤ out.old.spare }
        ensures bytes { out.new.bytes ≡ out.old.bytes ++ value_of (item_at self.now seqno) }
        ensures spare { out.new.spare + length (value_of (item_at self.now seqno)) ≡ out.old.spare }
    {
        match place(&self.items, seqno) {
            Some(index) => append(&self.pool, &self.items[index].value, out),
            None => {}
        }
    }

    /// How many blocks no item has, in constant time. The clauses tell besides what is true of all items.
    pub fn free(&self) -> u32
        ensures free { result ≡ free_of self.now }
        ensures held { blocks_of (all_items self.now) ≤ self.now.blocks }
        ensures fit { All IsFit (all_items self.now) }
        ensures rising { AreRising (all_items self.now) }
    {
        self.pool.free()
    }

    /// How many items there are, in constant time.
    pub fn count(&self) -> u32
        ensures { result ≡ length (all_items self.now) }
    {
        self.items.len() as u32
    }
}
