// Rows on a stripe, with their answers written out, a stripe beside a plain program, and what a stripe stands on.
mod book;
mod filled;
mod plain;
mod random;
mod rows;
mod shown;
mod slots;

ghost use Rattle.std.specs.Prelude.{◌≡◌, ◌==◌};
ghost use Rattle.ep_model.specs.Limits.{IsKey, IsValue};

use crate::{Found, Stripe};
use ep_model::{Config, Eviction, Meta, NoMemory, Out, stripe_of};
use std::alloc::Global;

/// The bytes of all values.
const BYTES: [u8; 2048] = [7; 2048];

/// A document's metadata. One of no byte is a tombstone.
fn meta(seqno: u64, len: u32) -> Meta
    ensures { result ≡ record {
      flags = 0;
      expiry = 0;
      cas = seqno;
      seqno = seqno;
      deleted = len == 0;
      len = len;
    } }
{
    Meta {
        flags: 0,
        expiry: 0,
        cas: seqno,
        seqno,
        deleted: len == 0,
        len,
    }
}

/// The only stripe of a vBucket.
#[derive(Drop)]
struct Only {
    stripe: Stripe,
    ghost alone: { (stripe.stripes ≡ 1) × (stripe.index ≡ 0) },
}

/// An empty one of so many blocks, where there is memory for it.
fn only_of(alloc: Global, blocks: u32, eviction: Eviction) -> Option<Only> {
    let config = Config {
        vbuckets: 1,
        stripes: 1,
        blocks,
        ckpt_blocks: 16,
        ckpt_max: 1,
        eviction,
        early: false,
    };
    match config.fault() {
        Some(_) => None,
        None => match Stripe::new(alloc, 0, &config) {
            Ok(stripe) => Some(Only { stripe }),
            Err(_) => None,
        },
    }
}

impl Only {
    /// Puts a document where it fits, and answers whether it does.
    fn put(&mut self, key: &[u8], seqno: u64, value: &[u8]) -> bool
        requires key { IsKey key.now }
        requires value { IsValue value.now }
    {
        if stripe_of(key, 1) != 0 {
            return false;
        }
        let len = value.len() as u32;
        match self.stripe.room_for(key, len) {
            Ok(()) => {
                self.stripe.place(key, meta(seqno, len), value);
                true
            }
            Err(_) => false,
        }
    }

    /// Notes that mutations up to this number are stored, where it isn't below the mark.
    fn mark(&mut self, number: u64) {
        if self.stripe.marked() <= number {
            self.stripe.mark(number);
        }
    }

    /// Ejects a document that is resident and stored.
    fn eject(&mut self, key: u8) {
        if let Found::Resident(meta) = self.stripe.find(&[key]) {
            if meta.seqno <= self.stripe.marked() {
                self.stripe.eject(&[key]);
            }
        }
    }
}

/// The first byte of the key of the document that is ejected next.
fn oldest(stripe: &Stripe, alloc: Global) -> Result<Option<u8>, NoMemory> {
    let mut out = Out::new(alloc, 250)?;
    // tells that no key is longer than the buffer
    let _free = stripe.free();
    if !stripe.oldest(&mut out) {
        return Ok(None);
    }
    Ok(out.bytes().first().copied())
}

/// Documents of four and two blocks and a tombstone of one, of sixteen blocks: `a`, `b` and `t`, all stored.
fn three(alloc: Global, eviction: Eviction) -> Option<Only> {
    let mut only = only_of(alloc, 16, eviction)?;
    let _put = only.put(b"a", 1, &BYTES[..300]);
    let _put = only.put(b"b", 2, &BYTES[..128]);
    let _put = only.put(b"t", 3, b"");
    only.mark(3);
    Some(only)
}

/// Whether a stripe of many blocks is made, and shows what it was made with and what a document pins.
fn shows_what_is_pinned(alloc: Global) -> bool {
    let Some(mut only) = only_of(alloc, 100_000, Eviction::Value) else {
        return false;
    };
    let _put = only.put(b"a", 1, &BYTES[..300]);
    let is_dirty = only.stripe.pinned(b"b") == 4 && only.stripe.pinned(b"a") == 0;
    only.mark(1);
    let is_clean = only.stripe.pinned(b"b") == 1;
    let is_made = only.stripe.blocks() == 100_000 && only.stripe.eviction() == Eviction::Value;
    is_dirty && is_clean && is_made
}

/// A document that isn't stored pins its four blocks, and a stored one its key's.
#[test]
fn a_stripe_of_many_blocks_tells_what_is_pinned(rt: HostRuntime) {
    assert!(rt; shows_what_is_pinned(rt.alloc()));
}
