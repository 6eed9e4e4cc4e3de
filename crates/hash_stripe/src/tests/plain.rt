// A stripe as a plain program has it, to be compared with.
use super::meta;
use crate::{Counts, Found};
use ep_model::Eviction;

/// What the plain program has of a document. One of no byte is a tombstone.
#[derive(Clone, Copy)]
struct Document {
    key: u8,
    seqno: u64,
    len: u32,
    is_resident: bool,
    age: u8,
}

/// Slots for eight keys of one byte, and forty blocks.
#[derive(Drop)]
pub struct Plain {
    slots: [Option<Document>; 8],
    eviction: Eviction,
    mark: u64,
}

fn blocks(document: Document) -> u32 {
    if document.is_resident {
        document.len.div_ceil(128).wrapping_add(1)
    } else {
        1
    }
}

impl Plain {
    pub fn new(eviction: Eviction) -> Plain {
        Plain {
            slots: [None; 8],
            eviction,
            mark: 0,
        }
    }

    fn document(&self, key: u8) -> Option<Document> {
        for slot in self.slots {
            if let Some(document) = slot {
                if document.key == key {
                    return Some(document);
                }
            }
        }
        None
    }

    pub fn find(&self, key: u8) -> Found {
        match self.document(key) {
            None => Found::Nothing,
            Some(document) => {
                let meta = meta(document.seqno, document.len);
                if document.is_resident {
                    Found::Resident(meta)
                } else {
                    Found::Ejected(meta)
                }
            }
        }
    }

    pub fn age(&self, key: u8) -> Option<u8> {
        match self.document(key) {
            None => None,
            Some(document) => Some(document.age),
        }
    }

    /// The blocks that no other key's document takes.
    pub fn free_for(&self, key: u8) -> u32 {
        let mut free = 40u32;
        for slot in self.slots {
            if let Some(document) = slot {
                if document.key != key {
                    free = free.wrapping_sub(blocks(document));
                }
            }
        }
        free
    }

    pub fn counts(&self) -> Counts {
        let mut resident = 0u32;
        let mut ejected = 0u32;
        for slot in self.slots {
            if let Some(document) = slot {
                if document.is_resident {
                    resident = resident.wrapping_add(1);
                } else {
                    ejected = ejected.wrapping_add(1);
                }
            }
        }
        Counts { resident, ejected }
    }

    /// The key that is ejected next for another one.
    fn victim(&self, key: u8) -> Option<u8> {
        let mut best: Option<Document> = None;
        for slot in self.slots {
            if let Some(document) = slot {
                let is_older = match best {
                    None => true,
                    Some(best) => best.age < document.age,
                };
                if document.key != key
                    && document.seqno <= self.mark
                    && document.is_resident
                    && is_older
                {
                    best = slot;
                }
            }
        }
        match best {
            None => None,
            Some(document) => Some(document.key),
        }
    }

    /// What is left of a document that is ejected.
    fn rest(&self, document: Document) -> Option<Document> {
        match self.eviction {
            Eviction::Value if document.len > 0 => Some(Document {
                is_resident: false,
                ..document
            }),
            _ => None,
        }
    }

    /// Ejects a document that is resident and stored.
    pub fn eject(&mut self, key: u8) {
        for slot in 0..8usize {
            if let Some(document) = self.slots[slot] {
                if document.key == key && document.is_resident && document.seqno <= self.mark {
                    self.slots[slot] = self.rest(document);
                }
            }
        }
    }

    /// The slot of a key, or else the first empty one.
    fn slot_for(&self, key: u8) -> usize {
        let mut empty = 0;
        for slot in (0..8usize).rev() {
            match self.slots[slot] {
                None => empty = slot,
                Some(document) => {
                    if document.key == key {
                        return slot;
                    }
                }
            }
        }
        empty
    }

    /// Puts a document where it fits, after others are ejected.
    pub fn put(&mut self, key: u8, seqno: u64, len: u32) -> bool {
        let document = Document {
            key,
            seqno,
            len,
            is_resident: true,
            age: 0,
        };
        for _ in 0..9 {
            if blocks(document) <= self.free_for(key) {
                let slot = self.slot_for(key);
                self.slots[slot % 8] = Some(document);
                return true;
            }
            match self.victim(key) {
                None => return false,
                Some(other) => self.eject(other),
            }
        }
        false
    }

    pub fn mark(&mut self, number: u64) {
        self.mark = number;
    }

    /// Gives the documents of a key this age, or makes each one older.
    pub fn set_ages(&mut self, heated: Option<u8>) {
        for slot in 0..8usize {
            if let Some(document) = self.slots[slot] {
                let age = match heated {
                    None => document.age.saturating_add(1).min(3),
                    Some(key) if key == document.key => 0,
                    _ => document.age,
                };
                self.slots[slot] = Some(Document { age, ..document });
            }
        }
    }
}
