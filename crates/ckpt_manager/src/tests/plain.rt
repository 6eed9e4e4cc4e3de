// Random calls on a queue against a list that keeps all items.
use super::{next_is, persist, put, queue_of};
use crate::Queue;
use ep_model::Out;
use std::alloc::{AllocError, Global};

const BLOCKS: u64 = 24;

const KEYS: usize = 3;

/// A mutation, whose value is `len` times the same byte.
#[derive(Clone, Copy, Drop)]
pub struct PlainItem {
    pub number: u64,
    pub key: u8,
    pub fill: u8,
    pub len: usize,
    id: u64,
}

impl PlainItem {
    /// The blocks of the key and of the value.
    fn blocks(&self) -> u64 {
        (self.len as u64).div_ceil(128).wrapping_add(1)
    }
}

/// All items that no later one of their checkpoint took the place of.
#[derive(Drop)]
struct Plain {
    items: Vec<PlainItem>,
    id: u64,
    high: u64,
    maxcas: u64,
    persisted: u64,
    cursor: u64,
    refused: u64,
}

impl Plain {
    /// Where the key's item stands in the open checkpoint.
    fn place(&self, key: u8) -> Option<usize> {
        for (index, item) in self.items.iter().enumerate() {
            if item.id == self.id && item.key == key {
                return Some(index);
            }
        }
        None
    }

    /// How many items the open checkpoint has.
    fn open(&self) -> usize {
        let mut count = 0usize;
        for item in &self.items {
            if item.id == self.id {
                count = count.wrapping_add(1);
            }
        }
        count
    }

    /// The blocks of the items that aren't stored, with this one.
    fn kept_with(&self, new: PlainItem) -> u64 {
        let mut sum = new.blocks();
        for item in &self.items {
            let is_replaced = item.id == self.id && item.key == new.key;
            if item.number > self.persisted && !is_replaced {
                sum = sum.wrapping_add(item.blocks());
            }
        }
        sum
    }

    /// Queues a mutation with the next CAS where it fits, and answers its number.
    fn put(&mut self, key: u8, fill: u8, len: usize) -> Result<Option<u64>, AllocError> {
        let number = self.high.wrapping_add(1);
        let new = PlainItem {
            number,
            key,
            fill,
            len,
            id: self.id,
        };
        if self.kept_with(new) > BLOCKS {
            self.refused = self.refused.wrapping_add(1);
            return Ok(None);
        }
        self.clear(key);
        self.items.push(PlainItem { id: self.id, ..new })?;
        self.high = number;
        self.maxcas = self.maxcas.wrapping_add(1);
        Ok(Some(number))
    }

    /// Makes place for the key in the open checkpoint.
    fn clear(&mut self, key: u8) {
        match self.place(key) {
            Some(index) => {
                if index < self.items.len() {
                    let _old = self.items.remove(index);
                }
            }
            None => {
                if self.open() == KEYS {
                    self.id = self.id.wrapping_add(1);
                }
            }
        }
    }

    /// Notes that all is stored up to the number, where the store may have just reached it.
    fn persist(&mut self, number: u64) -> bool {
        if number <= self.persisted || self.high < number {
            return false;
        }
        self.persisted = number;
        self.cursor = self.cursor.max(number);
        if self.open() != 0 {
            self.id = self.id.wrapping_add(1);
        }
        true
    }

    /// The first item above a number.
    fn after(&self, seqno: u64) -> Option<PlainItem> {
        for item in &self.items {
            if item.number > seqno {
                return Some(*item);
            }
        }
        None
    }

    /// Whether the queue has the same numbers.
    fn has_numbers_of(&self, queue: &Queue) -> bool {
        self.high == queue.high()
            && self.maxcas == queue.maxcas()
            && self.persisted == queue.persisted()
            && self.cursor == queue.cursor()
            && self.id == queue.checkpoint_id()
    }

    /// Whether the queue has the same items above the persisted number.
    fn has_items_of(&self, queue: &Queue, out: &mut Out) -> bool {
        let mut at = self.persisted;
        for _ in 0..30u32 {
            let next = self.after(at);
            if !next_is(queue, at, next, out) {
                return false;
            }
            if let Some(item) = next {
                at = item.number;
            }
        }
        true
    }
}

/// The next of a row of numbers that look random.
fn drawn(state: &mut u64) -> u64 {
    *state = state
        .wrapping_mul(6_364_136_223_846_793_005)
        .wrapping_add(1_442_695_040_888_963_407);
    *state >> 33
}

/// Queues a drawn mutation in both, where it fits, and tells whether they answer the same.
fn both_put(queue: &mut Queue, plain: &mut Plain, state: &mut u64) -> Result<bool, AllocError> {
    let key = b'a' + (drawn(state) % 5) as u8;
    let fill = (drawn(state) % 256) as u8;
    let len = (drawn(state) % 600) as usize;
    let value = [fill; 600];
    let wanted = plain.put(key, fill, len)?;
    Ok(put(queue, &[key], &value[..len]) == wanted)
}

/// Makes a drawn call in both, and tells whether they answer the same.
fn both_called(queue: &mut Queue, plain: &mut Plain, state: &mut u64) -> Result<bool, AllocError> {
    match drawn(state) % 9 {
        0 => {
            queue.advance();
            plain.cursor = plain.high;
            Ok(true)
        }
        1 => {
            queue.fall_back();
            plain.cursor = plain.persisted;
            Ok(true)
        }
        2 => {
            let number = plain.persisted.wrapping_add(drawn(state) % 4);
            let wanted = plain.persist(number);
            Ok(persist(queue, number) == wanted)
        }
        _ => both_put(queue, plain, state),
    }
}

/// Whether so many drawn calls answer the same in both, and leave the same.
fn are_same(queue: &mut Queue, plain: &mut Plain, out: &mut Out, calls: u32) -> bool {
    let mut state = 7;
    for _ in 0..calls {
        let Ok(true) = both_called(queue, plain, &mut state) else {
            return false;
        };
        if !plain.has_numbers_of(queue) || !plain.has_items_of(queue, out) {
            return false;
        }
    }
    true
}

/// Whether a queue is as a plain list through 300 calls, of which some are refused.
fn is_as_plain(alloc: Global) -> bool {
    let Ok(mut queue) = queue_of(alloc, 24, 3) else {
        return false;
    };
    let Ok(mut out) = Out::new(alloc, 1_048_826) else {
        return false;
    };
    let mut plain = Plain {
        items: Vec::new(alloc),
        id: 1,
        high: 0,
        maxcas: 0,
        persisted: 0,
        cursor: 0,
        refused: 0,
    };
    are_same(&mut queue, &mut plain, &mut out, 300) && plain.refused > 10
}

#[test]
fn calls_do_what_a_plain_list_does(rt: HostRuntime) {
    assert!(rt; is_as_plain(rt.alloc()));
}
