// A queue's numbers and room by hand, its calls against a plain list of items, and what a queue stands on.
mod cursors;
mod failovers;
mod fields;
mod items;
mod plain;
mod pool;
mod rows;

ghost use Rattle.std.specs.Prelude.{◌≡◌, ◌≤◌, length, IfOk};
ghost use Rattle.ep_model.specs.Limits.{IsKey, IsValue};
ghost use Rattle.ckpt_manager.specs.Queue.{fresh};

use crate::Queue;
use ckpt_items::Items;
use ep_model::{Config, Eviction, Meta, OpenFault, Out};
use plain::PlainItem;
use std::alloc::Global;

/// An empty queue over so many blocks, with at most so many keys in a checkpoint.
fn queue_of(alloc: Global, ckpt_blocks: u32, ckpt_max: u32) -> Result<Queue, OpenFault>
    ensures { IfOk result (λ q. q ≡ fresh ckpt_blocks ckpt_max) }
{
    let config = Config {
        vbuckets: 1,
        stripes: 1,
        blocks: 16,
        ckpt_blocks,
        ckpt_max,
        eviction: Eviction::Value,
        early: false,
    };
    match config.fault() {
        Some(field) => Err(OpenFault::BadConfig(field)),
        None => match Queue::new(alloc, &config) {
            Ok(queue) => Ok(queue),
            Err(_) => Err(OpenFault::NoMemory),
        },
    }
}

/// Queues a mutation with the next CAS where there is room, and answers its number.
fn put(queue: &mut Queue, key: &[u8], value: &[u8]) -> Option<u64>
    requires key { IsKey key.now }
    requires value { IsValue value.now }
{
    if queue.high() >= 1000 {
        return None;
    }
    let cas = queue.maxcas() + 1;
    let len = value.len() as u32;
    let meta = Meta {
        flags: 0,
        expiry: 0,
        cas,
        seqno: 0,
        deleted: false,
        len,
    };
    match queue.room_for(key, len) {
        Err(_) => None,
        Ok(()) => Some(queue.queue(key, meta, value)),
    }
}

/// Whether the next item above a number is this one.
fn next_is(queue: &Queue, seqno: u64, wanted: Option<PlainItem>, out: &mut Out) -> bool {
    match (queue.take_from(seqno), wanted) {
        (Some(number), Some(item)) => number == item.number && has_bytes(queue.items(), item, out),
        (None, None) => true,
        _ => false,
    }
}

/// Whether an item has its key and its value. The buffer has room for one of each.
fn has_bytes(items: &Items, item: PlainItem, out: &mut Out) -> bool {
    out.cut(0);
    if out.spare() < 250 + 1_048_576 {
        return false;
    }
    // tells that keys and values are within their limits
    let _free = items.free();
    items.key_to(item.number, out);
    items.value_to(item.number, out);
    match out.bytes() {
        [key, value @ ..] => *key == item.key && is_filled(value, item.fill, item.len),
        [] => false,
    }
}

/// Whether the bytes are so many times the same.
fn is_filled(bytes: &[u8], fill: u8, len: usize) -> bool {
    for byte in bytes {
        if *byte != fill {
            return false;
        }
    }
    bytes.len() == len
}

/// Notes that the store holds all up to the number, where that is one that it may be told.
fn persist(queue: &mut Queue, number: u64) -> bool {
    let fits = queue.persisted() < number && number <= queue.high();
    if fits {
        queue.set_persisted(number);
    }
    fits
}
