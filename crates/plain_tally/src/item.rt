// A document under its key, as the quota counts it.
ghost use Rattle.ep_model.specs.Limits.{IsKey, IsValue};

use ep_model::{Eviction, NoMemory, rules};
use std::alloc::Global;

/// A document under its key. `expiry` is 0 or seconds since 1970.
#[derive(Drop)]
pub struct PlainItem {
    pub key: Vec<u8>,
    pub value: Vec<u8>,
    pub flags: u32,
    pub expiry: u32,
    pub cas: u64,
    pub seqno: u64,
    pub deleted: bool,
    ghost keyed: { IsKey key.items },
    ghost fits: { IsValue value.items },
}

impl PlainItem {
    ghost use Rattle.std.specs.Prelude.{◌≡◌, IfOk};
    ghost use Rattle.ep_model.specs.Limits.{IsKey, IsValue};
    ghost use Rattle.ep_model.specs.World.{blank_doc, doc_blocks};
    ghost use Rattle.ep_model.specs.Quota.{pinned_blocks};
    ghost use Rattle.plain_tally.specs.Items.{item_data};

    /// A document of these bytes that isn't deleted. Its cost is linear in them, which it copies.
    pub fn copied(
        alloc: Global,
        key: &[u8],
        value: &[u8],
        seqno: u64,
    ) -> Result<PlainItem, NoMemory>
        requires key { IsKey key.now }
        requires value { IsValue value.now }
        ensures { IfOk result (λ item. item_data item
            ≡ (key.now, record blank_doc { value = value.now; seqno = seqno })) }
    {
        Ok(PlainItem {
            key: key.to_vec(alloc)?,
            value: value.to_vec(alloc)?,
            flags: 0,
            expiry: 0,
            cas: 0,
            seqno,
            deleted: false,
        })
    }

    /// The same document. Its cost is linear in the lengths of key and value, which it copies.
    pub fn copy(&self, alloc: Global) -> Result<PlainItem, NoMemory>
        ensures { IfOk result (λ item. item_data item ≡ item_data self.now) }
    {
        Ok(PlainItem {
            key: self.key.to_vec(alloc)?,
            value: self.value.to_vec(alloc)?,
            flags: self.flags,
            expiry: self.expiry,
            cas: self.cas,
            seqno: self.seqno,
            deleted: self.deleted,
        })
    }

    /// How many blocks the key and the value take.
    pub fn blocks(&self) -> u64
        ensures { result ≡ doc_blocks self.now.key.items (item_data self.now).1 }
    {
        (rules::blocks(self.key.len()) + rules::blocks(self.value.len())) as u64
    }

    /// How many of them can't leave memory where all mutations up to `mark` are stored.
    pub fn pinned_blocks(&self, eviction: Eviction, mark: u64) -> u64
        ensures { result ≡ pinned_blocks eviction mark self.now.key.items (item_data self.now).1 }
    {
        if self.seqno > mark {
            self.blocks()
        } else {
            match eviction {
                Eviction::Value if !self.deleted => rules::blocks(self.key.len()) as u64,
                Eviction::Value | Eviction::Full => 0,
            }
        }
    }
}
