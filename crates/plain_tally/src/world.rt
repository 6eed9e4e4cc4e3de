// A vBucket of plain lists, and whether there is room for a call.
ghost use Rattle.std.specs.Prelude.{◌≡◌};
ghost use Rattle.ep_model.specs.History.{call_data};
ghost use Rattle.std.specs.List.{find};
ghost use Rattle.std.specs.Option.{option_map, option_copied};
ghost use Rattle.std.specs.Str.{bytes_eq};
ghost use Rattle.ep_model.specs.Limits.{IsKey};
ghost use Rattle.plain_tally.specs.declared.item.PlainItem.{PlainItem};
ghost use Rattle.ep_model.specs.Quota.{blocks_if, standing_blocks};
ghost use Rattle.plain_tally.specs.Items.{item_data};
ghost use Rattle.plain_tally.specs.Rooms.{doc_data, is_overfull_at};

use crate::checkpoints::{PlainCheckpoints, forget};
use crate::documents::pinned;
use crate::item::PlainItem;
use ep_model::{Call, Config, Eviction, NoMemory, VbState, rules, stripe_of};
use std::alloc::Global;
use std::marker::Model;

/// The documents of an open vBucket in a plain list, with its numbers. Each call's cost is linear in them.
#[derive(Drop)]
pub struct PlainWorld {
    alloc: Global,
    eviction: Eviction,
    stripes: u16,
    fit: u32,
    state: VbState,
    documents: Vec<PlainItem>,
    high: u64,
    maxcas: u64,
    persisted: u64,
}

impl Model for PlainWorld {
    ghost use Rattle.std.specs.Prelude.{◌≡◌, ◌<◌, true};
    ghost use Rattle.ep_model.specs.World.{World};
    ghost use Rattle.ep_model.specs.Codes.{coded_world};
    ghost use Rattle.plain_tally.specs.Items.{items_data};
    ghost use Rattle.plain_tally.specs.Laws.{are_distinct};
    ghost use Rattle.plain_tally.specs.Rooms.{world_data};

    ghost Value = { World };

    ghost coded = { coded_world };

    ghost view = { λ w. world_data w.eviction w.stripes w.fit w.state w.documents.items w.high
        w.maxcas w.persisted };

    ghost invariant = { λ w. (0 < w.stripes) × (are_distinct (items_data w.documents.items)
        ≡ true) };
}

// The first document of a key.
fn item_of<'a>(items: &'a [PlainItem], key: &[u8]) -> Option<&'a PlainItem>
    ensures { option_copied result ≡ find (λ (item : PlainItem). bytes_eq item.key.items key.now)
        items.now }
{
    items.iter().find(|item| item.key.as_slice() == key)
}

// The blocks of a key's document, where that stands and isn't deleted.
fn standing_blocks(key: &[u8], document: Option<&PlainItem>) -> u64
    requires { IsKey key.now }
    ensures { result ≡ standing_blocks key.now
        (option_map doc_data (option_copied document.entry)) }
{
    match document {
        Some(item) if !item.deleted => {
            (rules::blocks(key.len()) + rules::blocks(item.value.len())) as u64
        }
        Some(_) | None => 0,
    }
}

// The blocks of what a call puts.
fn blocks_of(puts: Option<&PlainItem>) -> u64
    ensures { result ≡ blocks_if (option_map item_data (option_copied puts.entry)) }
{
    match puts {
        Some(item) => item.blocks(),
        None => 0,
    }
}

impl PlainWorld {
    ghost use Rattle.std.specs.Prelude.{◌≡◌, ◌<◌, ◌+◌, ◌-◌, ◌^◌, min, Option, Some, None, IfOk, OnOk, OnErr};
    ghost use Rattle.std.specs.Option.{option_map, option_copied};
    ghost use Rattle.std.specs.FinMap as finmap;
    ghost use Rattle.ep_model.specs.Limits.{IsKey};
    ghost use Rattle.ep_model.specs.World.{put};
    ghost use Rattle.ep_model.specs.Stripes.{stripe_of};
    ghost use Rattle.ep_model.specs.Answer.{answer};
    ghost use Rattle.ep_model.specs.Mutations.{put_by};
    ghost use Rattle.ep_model.specs.Quota.{pinned, need, old_blocks};
    ghost use Rattle.plain_tally.specs.Items.{item_data};
    ghost use Rattle.plain_tally.specs.Rooms.{doc_data, open_world, stripe_is_full_at, is_short_at};

    /// A vBucket with this layout and nothing else. It takes no memory.
    pub fn new(alloc: Global, config: &Config) -> PlainWorld
        requires { 0 < config.now.stripes }
        ensures { result ≡ open_world config.now }
    {
        PlainWorld {
            alloc,
            eviction: config.eviction,
            stripes: config.stripes,
            fit: config.blocks.min(config.ckpt_blocks),
            state: VbState::Active,
            documents: Vec::new(alloc),
            high: 0,
            maxcas: 0,
            persisted: 0,
        }
    }

    /// The greatest sequence number.
    pub fn high(&self) -> u64
        ensures { result ≡ self.now.high }
    {
        self.high
    }

    /// The greatest CAS.
    pub fn maxcas(&self) -> u64
        ensures { result ≡ self.now.maxcas }
    {
        self.maxcas
    }

    /// How many blocks a document may take.
    pub fn fit(&self) -> u32
        ensures { result ≡ self.now.fit }
    {
        self.fit
    }

    pub(crate) fn state(&self) -> VbState
        ensures { result ≡ self.now.state }
    {
        self.state
    }

    /// The document of a key, live or not.
    pub fn get(&self, key: &[u8]) -> Option<&PlainItem>
        ensures { option_map doc_data (option_copied result) ≡ finmap.get self.now.docs key.now }
    {
        item_of(&self.documents, key)
    }

    /// The blocks that a call needs in memory: those of the document that it puts, if it puts one, or where it needs
    /// the old document those of that, if they are more.
    pub fn need(&self, key: &[u8], call: &Call, now: u64, puts: Option<&PlainItem>) -> u64
        requires key { IsKey key.now }
        requires puts { option_map item_data (option_copied puts)
            ≡ put_by (answer self.now (call_data call.now) now).effect }
        ensures { result ≡ need self.now key.now (call_data call.now) now }
    {
        blocks_of(puts).max(self.old_blocks(key, call))
    }

    // The blocks of the old document, for a call that needs it and isn't refused whatever that is.
    fn old_blocks(&self, key: &[u8], call: &Call) -> u64
        requires { IsKey key.now }
        ensures { result ≡ old_blocks self.now key.now (call_data call.now) }
    {
        if rules::needs(self.eviction, call) && rules::own_refusal(self.fit, call).is_none() {
            standing_blocks(key, self.get(key))
        } else {
            0
        }
    }

    /// The pinned blocks of the key's stripe but for the key's, at most 2^64 - 1, where all mutations up to `mark` are
    /// known there to be stored.
    pub fn pinned(&self, mark: u64, key: &[u8]) -> u64
        ensures { result ≡ min (pinned self.now (stripe_of key.now self.now.stripes) mark key.now)
            (2 ^ 64 - 1) }
    {
        let stripe = stripe_of(key, self.stripes);
        pinned(
            &self.documents,
            self.eviction,
            self.stripes,
            stripe,
            mark,
            key,
        )
    }

    /// Whether there is no room for a call that puts this document, if any: what can't leave memory of the key's stripe
    /// and what the call needs are above its blocks, or what the checkpoints keep is above theirs.
    pub fn is_short(
        &self,
        config: &Config,
        mark: u64,
        checkpoints: &PlainCheckpoints,
        key: &[u8],
        call: &Call,
        now: u64,
        puts: Option<&PlainItem>,
    ) -> bool
        requires key { IsKey key.now }
        requires puts { option_map item_data (option_copied puts)
            ≡ put_by (answer self.now (call_data call.now) now).effect }
        ensures { result ≡ is_short_at config.now self.now mark checkpoints.now key.now
            (call_data call.now) now }
    {
        self.stripe_is_full(config.blocks, mark, key, call, now, puts)
            || is_overfull(config, self.persisted, checkpoints, puts)
    }

    // Whether the key's stripe has no room for what a call needs.
    fn stripe_is_full(
        &self,
        blocks: u32,
        mark: u64,
        key: &[u8],
        call: &Call,
        now: u64,
        puts: Option<&PlainItem>,
    ) -> bool
        requires key { IsKey key.now }
        requires puts { option_map item_data (option_copied puts)
            ≡ put_by (answer self.now (call_data call.now) now).effect }
        ensures { result ≡ stripe_is_full_at blocks self.now mark key.now (call_data call.now) now }
    {
        let need = self.need(key, call, now, puts);
        need != 0 && self.pinned(mark, key).saturating_add(need) > u64::from(blocks)
    }

    /// Notes that the store holds all mutations up to this number.
    pub fn persist(&mut self, number: u64)
        ensures { self.new ≡ record self.old { persisted = number } }
    {
        self.persisted = number;
    }

    /// Puts a document in place of the key's. Its numbers are now the greatest.
    pub fn put(&mut self, item: PlainItem) -> Result<(), NoMemory>
        ensures ok { OnOk result (self.new ≡ put self.old (item_data item).0 (item_data item).1) }
        ensures err { OnErr result (self.new ≡ self.old) }
    {
        self.documents.reserve(1)?;
        self.high = item.seqno;
        self.maxcas = item.cas;
        forget(&mut self.documents, &item.key);
        self.documents.push_reserved(item);
        Ok(())
    }
}

// Whether the checkpoints have no room for what a call puts, where all mutations up to a number are stored.
fn is_overfull(
    config: &Config,
    persisted: u64,
    checkpoints: &PlainCheckpoints,
    puts: Option<&PlainItem>,
) -> bool
    ensures { result ≡ is_overfull_at config.now.ckpt_blocks config.now.ckpt_max persisted
        checkpoints.now (option_map item_data (option_copied puts.entry)) }
{
    match puts {
        Some(item) => {
            checkpoints.blocks_with(config.ckpt_max, persisted, item)
                > u64::from(config.ckpt_blocks)
        }
        None => false,
    }
}
