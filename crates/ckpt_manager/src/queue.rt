// The queue of a vBucket's mutations, in checkpoints.
ghost use Rattle.std.specs.Prelude.{◌≡◌, ◌≤◌, ◌+◌, length};
ghost use Rattle.ep_model.specs.Limits.{IsKey};
ghost use Rattle.ep_model.specs.World.{blocks};

use ckpt_cursors::Cursors;
use ckpt_items::{Items, Short};
use ep_model::{Config, Meta, NoMemory, VbState};
use failover_table::Failovers;
use std::alloc::Global;
use std::marker::Model;

/// The mutations of a vBucket on their way to the store, in checkpoints as kv_engine has them, and the vBucket's
/// numbers. A checkpoint has one item a key, the last, and at most so many keys as the layout says. Who reads the items
/// is known by cursors: that of the flusher, its backup at the persisted number, and named ones. All memory is taken by
/// `new`. A call that names no cost has a constant one.
#[derive(Drop)]
pub struct Queue {
    items: Items,
    // how many blocks the items share
    blocks: u32,
    // how many keys the open checkpoint has
    keys: u32,
    ckpt_max: u32,
    id: u64,
    cursor: u64,
    persisted: u64,
    named: Cursors,
    high: u64,
    maxcas: u64,
    table: Failovers,
    state: VbState,
    opened: bool,
}

impl Model for Queue {
    ghost use Rattle.ckpt_manager.specs.declared.data.QueueData.{QueueData};

    ghost Value = { QueueData };

    ghost use Rattle.ckpt_manager.specs.View.{queue_view, CountsKeys};

    ghost view = { queue_view };

    ghost invariant = { CountsKeys };
}

/// How many blocks of 128 bytes so many bytes take.
fn blocks_of(len: u32) -> u32
    ensures blocks { result ≡ blocks len }
    ensures bound { result ≤ 33554432 }
{
    len.div_ceil(128)
}

/// How many blocks an item of this key takes, with so many bytes of value.
fn blocks_of_item(key: &[u8], len: u32) -> u32
    requires { IsKey key.now }
    ensures blocks { result ≡ blocks (length key.now) + blocks len }
    ensures bound { result ≤ 67108864 }
{
    blocks_of(key.len() as u32) + blocks_of(len)
}

impl Queue {
    ghost use Rattle.std.specs.Prelude.{◌≡◌, ◌≤◌, ◌<◌, ◌+◌, ◌-◌, ◌^◌, ◌↔◌, [], true, false, length};
    ghost use Rattle.std.specs.Prelude.{IsErr, IfOk, IfErr, OnOk, OnErr, MatchBool, None};
    ghost use Rattle.ep_model.specs.Config.{config_fault};
    ghost use Rattle.ep_model.specs.Limits.{IsKey, IsValue, end_of_moments};
    ghost use Rattle.ep_model.specs.Plain.{IsSound};
    ghost use Rattle.ep_model.specs.World.{blocks};
    ghost use Rattle.ckpt_items.specs.Items.{blocks_of as blocks_of_items};
    ghost use Rattle.ckpt_manager.specs.Sound.{IsSoundQueue};
    ghost use Rattle.ckpt_manager.specs.Queue.{held, kept, free_blocks, closed, closed_if_any, cleared, queued, item_of};
    ghost use Rattle.ckpt_manager.specs.Queue.{kept_with, replaced_blocks, CanHold, Expelled, NoneTooMany, NonePassed, ExpelsOne, ExpelsNone};
    ghost use Rattle.ckpt_manager.specs.Queue.{stored, begun, fresh, least_cursor, LastIs, LastStays, ReadsOn};

    /// The queue of an active vBucket that hasn't opened and has no mutation yet. Its cost is linear in the checkpoints'
    /// blocks, whose memory it takes.
    pub fn new(alloc: Global, config: &Config) -> Result<Queue, NoMemory>
        requires { config_fault config.now ≡ None }
        ensures { IfOk result (λ q. q ≡ fresh config.now.ckpt_blocks config.now.ckpt_max) }
    {
        let blocks = config.ckpt_blocks;
        let ckpt_max = config.ckpt_max;
        match Items::new(alloc, config.ckpt_blocks) {
            Err(e) => Err(e),
            Ok(items) => Ok(Queue {
                items,
                blocks,
                keys: 0,
                ckpt_max,
                id: 1,
                cursor: 0,
                persisted: 0,
                named: Cursors::new(),
                high: 0,
                maxcas: 0,
                table: Failovers::new(),
                state: VbState::Active,
                opened: false,
            }),
        }
    }

    /// Begins behind what a store holds: its greatest numbers, all of it persisted, and its failover table. The
    /// vBucket is active and hasn't opened.
    pub fn start(&mut self, high: u64, maxcas: u64, table: &Failovers)
        requires empty { held self.old ≡ [] }
        requires range { IsSound high maxcas }
        ensures { self.new ≡ begun self.old high maxcas table.now }
    {
        self.id = 1;
        self.cursor = high;
        self.persisted = high;
        self.high = high;
        self.maxcas = maxcas;
        self.table = table.copy();
        self.state = VbState::Active;
        self.opened = false;
    }

    /// Makes room for an item of this key with `len` bytes of value, which takes the place of the key's item in the open
    /// checkpoint: drops items that every cursor has passed, the oldest first, until it fits. It doesn't fit
    /// exactly where the items that the store doesn't have, with this one, take more blocks than there are. `Short`
    /// counts the blocks of the item that this one would replace among the free ones. Its cost is linear in the items of
    /// the open checkpoint and in those that it drops.
    pub fn room_for(&mut self, key: &[u8], len: u32) -> Result<(), Short>
        requires key { IsKey key.now }
        requires len { len ≤ 1048576 }
        ensures short { IsErr result ↔ (self.old.blocks < kept_with self.old key.now len) }
        ensures room { OnOk result (CanHold self.new key.now len) }
        ensures free { IfErr result (λ short.
            short.free ≡ free_blocks self.new + replaced_blocks self.new key.now) }
        ensures need { IfErr result (λ short. short.need ≡ blocks (length key.now) + blocks len) }
        ensures expelled { Expelled self.old self.new }
        ensures least { NoneTooMany self.old self.new key.now len }
        ensures left { OnErr result (NonePassed self.new) }
        ensures same { CanHold self.old key.now len → self.new ≡ self.old }
        ensures last { LastStays self.old self.new }
    {
        let need = blocks_of_item(key, len);
        let replaced = self.replaced_blocks(key);
        loop {
            let free = self.free() + replaced;
            if need <= free {
                return Ok(());
            }
            if !self.expel() {
                return Err(Short { free, need });
            }
        }
    }

    /// How many blocks no item takes.
    fn free(&self) -> u32
        ensures free { result ≡ free_blocks self.now }
        ensures sound { IsSoundQueue self.now }
    {
        self.items.free()
    }

    /// How many blocks the items share.
    pub fn blocks(&self) -> u32
        ensures blocks { result ≡ self.now.blocks }
        ensures sound { IsSoundQueue self.now }
    {
        self.blocks
    }

    /// The blocks of the key's item in the open checkpoint, 0 where there is none.
    fn replaced_blocks(&self, key: &[u8]) -> u32
        requires { IsKey key.now }
        ensures { result ≡ replaced_blocks self.now key.now }
    {
        match self.items.find_open(key) {
            None => 0,
            Some(number) => match self.items.meta(number) {
                None => unreachable!(),
                Some(meta) => blocks_of_item(key, meta.len),
            },
        }
    }

    /// Drops the oldest item where every cursor has passed it; else nothing changes.
    fn expel(&mut self) -> bool
        ensures { MatchBool result (ExpelsOne self.old self.new) (ExpelsNone self.old self.new) }
    {
        let least = self.least();
        match self.items.after(0) {
            Some(number) if number <= least => {
                self.items.drop_item(number);
                true
            }
            _ => false,
        }
    }

    /// The position that every cursor has reached.
    fn least(&self) -> u64
        ensures { result ≡ least_cursor self.now }
    {
        match self.named.least() {
            None => self.persisted,
            Some(at) => at.min(self.persisted),
        }
    }

    /// Puts a mutation last and answers its sequence number, the next one. It takes the place of the key's item in the
    /// open checkpoint. Where that holds as many keys as it may and not this one, it is closed first. `meta.cas` is the
    /// greatest CAS from now on, and `meta.seqno` isn't read. Its cost is linear in the bytes and in the number of the
    /// items of the open checkpoint.
    pub fn queue(&mut self, key: &[u8], meta: Meta, value: &[u8]) -> u64
        requires key { IsKey key.now }
        requires value { IsValue value.now }
        requires len { meta.len ≡ length value.now }
        requires room { CanHold self.old key.now (length value.now) }
        requires number { self.old.high < 2 ^ 48 - 1 }
        requires rises { self.old.maxcas < meta.cas }
        requires stamp { meta.cas ≤ end_of_moments + self.old.high + 1 }
        ensures number { result ≡ self.old.high + 1 }
        ensures after { self.new ≡ queued self.old key.now meta value.now }
        ensures kept { blocks_of_items (kept self.new)
            ≡ kept_with self.old key.now (length value.now) }
        ensures last { LastIs self.old self.new
            (item_of key.now meta value.now (self.old.high + 1)) }
    {
        self.clear(key);
        let number = self.next_number();
        let meta = Meta {
            flags: meta.flags,
            expiry: meta.expiry,
            cas: meta.cas,
            seqno: number,
            deleted: meta.deleted,
            len: meta.len,
        };
        let pushed = self.items.push(key, meta, value).is_ok();
        prove!(pushed);
        self.keys += 1;
        self.high = number;
        self.maxcas = meta.cas;
        number
    }

    /// The number that the next mutation takes.
    fn next_number(&self) -> u64
        ensures { result ≡ self.now.high + 1 }
    {
        self.high + 1
    }

    /// Makes place for a mutation of this key in the open checkpoint.
    fn clear(&mut self, key: &[u8])
        ensures after { self.new ≡ cleared self.old key.now }
        ensures sound { IsSoundQueue self.old }
    {
        let own = self.items.find_open(key);
        if self.is_full_of_others(own) {
            self.close();
        } else if let Some(number) = own {
            self.items.drop_item(number);
            self.keys -= 1;
        }
    }

    /// Whether the open checkpoint holds as many keys as it may, and not the one whose item there has this number.
    fn is_full_of_others(&self, own: Option<u64>) -> bool
        ensures full { result ≡ true → (length self.now.last ≡ self.now.ckpt_max) × (own ≡ None) }
        ensures free { result ≡ false → own ≡ None → length self.now.last < self.now.ckpt_max }
        ensures sound { IsSoundQueue self.now }
    {
        self.keys == self.ckpt_max && own.is_none()
    }

    /// Closes the open checkpoint, which isn't empty.
    fn close(&mut self)
        requires { 0 < length self.old.last }
        ensures { self.new ≡ closed self.old }
    {
        self.items.close_open();
        self.keys = 0;
        self.id += 1;
    }

    /// Closes the open checkpoint where it isn't empty.
    fn close_if_any(&mut self)
        ensures after { self.new ≡ closed_if_any self.old }
        ensures none { self.new.last ≡ [] }
    {
        if self.keys != 0 {
            self.close();
        }
    }

    /// The number of the first item above this one. Its cost is logarithmic in the number of items.
    pub fn take_from(&self, seqno: u64) -> Option<u64>
        ensures { ReadsOn seqno (held self.now) result }
    {
        self.items.after(seqno)
    }

    /// The items.
    pub fn items(&self) -> &Items
        ensures closed { result.now.closed ≡ self.now.closed }
        ensures open { result.now.last ≡ self.now.last }
        ensures blocks { result.now.blocks ≡ self.now.blocks }
    {
        &self.items
    }

    /// The flusher has read all.
    pub fn advance(&mut self)
        ensures { self.new ≡ record self.old { cursor = self.old.high } }
    {
        self.cursor = self.high;
    }

    /// The flusher reads again what it has read and the store doesn't have.
    pub fn fall_back(&mut self)
        ensures { self.new ≡ record self.old { cursor = self.old.persisted } }
    {
        self.cursor = self.persisted;
    }

    /// Up to which number the flusher has read.
    pub fn cursor(&self) -> u64
        ensures cursor { result ≡ self.now.cursor }
        ensures sound { IsSoundQueue self.now }
    {
        self.cursor
    }

    /// The store holds all mutations up to this number. The open checkpoint is closed where it isn't empty.
    pub fn set_persisted(&mut self, number: u64)
        requires rises { self.old.persisted < number }
        requires reached { number ≤ self.old.high }
        ensures after { self.new ≡ stored self.old number }
        ensures items { held self.new ≡ held self.old }
    {
        self.close_if_any();
        self.persisted = number;
        self.cursor = self.cursor.max(number);
    }

    /// The greatest sequence number.
    pub fn high(&self) -> u64
        ensures high { result ≡ self.now.high }
        ensures sound { IsSound self.now.high self.now.maxcas }
    {
        self.high
    }

    /// The greatest CAS.
    pub fn maxcas(&self) -> u64
        ensures maxcas { result ≡ self.now.maxcas }
        ensures sound { IsSound self.now.high self.now.maxcas }
    {
        self.maxcas
    }

    /// The number up to which the store holds all mutations, at most the greatest one.
    pub fn persisted(&self) -> u64
        ensures persisted { result ≡ self.now.persisted }
        ensures sound { IsSoundQueue self.now }
    {
        self.persisted
    }

    /// The id of the open checkpoint.
    pub fn checkpoint_id(&self) -> u64
        ensures { result ≡ self.now.id }
    {
        self.id
    }

    /// The failover table.
    pub fn table(&self) -> &Failovers
        ensures { result.now ≡ self.now.table }
    {
        &self.table
    }

    /// The vBucket's state.
    pub fn state(&self) -> VbState
        ensures { result ≡ self.now.state }
    {
        self.state
    }

    /// Sets the vBucket's state.
    pub fn set_state(&mut self, state: VbState)
        ensures { self.new ≡ record self.old { state = state } }
    {
        self.state = state;
    }

    /// Whether the vBucket has opened.
    pub fn is_opened(&self) -> bool
        ensures { result ≡ self.now.opened }
    {
        self.opened
    }

    /// Notes that the vBucket has opened.
    pub fn set_opened(&mut self)
        ensures { self.new ≡ record self.old { opened = true } }
    {
        self.opened = true;
    }
}
