// Stored documents that are put back, with their values or without.
ghost use Rattle.ep_model.specs.Limits.{IsKey, IsValue};

use super::shown::holds;
use super::{BYTES, Only, meta, three};
use crate::{Counts, Found, Short};
use ep_model::{Eviction, Out, stripe_of};
use std::alloc::Global;

impl Only {
    /// Puts a stored document back whose value is away.
    fn restore(&mut self, key: &[u8], value: &[u8]) -> Option<Result<(), Short>>
        requires key { IsKey key.now }
        requires value { IsValue value.now }
    {
        if stripe_of(key, 1) != 0 {
            return None;
        }
        match self.stripe.find(key) {
            Found::Ejected(meta) => {
                if meta.seqno > self.stripe.marked() {
                    return None;
                }
                if meta.deleted || meta.len as usize != value.len() {
                    return None;
                }
                Some(self.stripe.restore(key, meta, value))
            }
            Found::Nothing | Found::Resident(_) => None,
        }
    }

    /// Puts a stored document back that has no node.
    fn read_back(&mut self, key: &[u8], seqno: u64, value: &[u8]) -> Option<Result<(), Short>>
        requires key { IsKey key.now }
        requires value { IsValue value.now }
    {
        if stripe_of(key, 1) != 0 || seqno > self.stripe.marked() {
            return None;
        }
        match self.stripe.find(key) {
            Found::Nothing => {
                let meta = meta(seqno, value.len() as u32);
                Some(self.stripe.restore(key, meta, value))
            }
            Found::Ejected(_) | Found::Resident(_) => None,
        }
    }

    /// Adds the metadata of a stored document that has no node, under value eviction.
    fn add(&mut self, key: &[u8], seqno: u64, len: u32) -> Option<Result<(), Short>>
        requires key { IsKey key.now }
    {
        if stripe_of(key, 1) != 0 || seqno > self.stripe.marked() || len == 0 || len > 2048 {
            return None;
        }
        match (self.stripe.eviction(), self.stripe.find(key)) {
            (Eviction::Value, Found::Nothing) => {
                Some(self.stripe.add_ejected(key, meta(seqno, len)))
            }
            _ => None,
        }
    }
}

/// Puts `a`, which is there, and `b`, which was ejected, back.
fn put_back(only: &mut Only) -> [Option<Result<(), Short>>; 2] {
    only.eject(b'b');
    [
        only.restore(b"a", &BYTES[..300]),
        only.restore(b"b", &BYTES[..128]),
    ]
}

/// The same where nothing is left of `b`.
fn put_whole(only: &mut Only) -> [Option<Result<(), Short>>; 2] {
    only.eject(b'b');
    [
        only.read_back(b"a", 1, &BYTES[..300]),
        only.read_back(b"b", 2, &BYTES[..128]),
    ]
}

/// Whether `b` is there again, and only the blocks of the three documents aren't free.
fn is_whole(only: &Only, alloc: Global) -> bool {
    match Out::new(alloc, 2048) {
        Err(_) => false,
        Ok(mut out) => {
            holds(&only.stripe, b"b", &BYTES[..128], &mut out) && only.stripe.free() == 9
        }
    }
}

fn are_back(alloc: Global) -> Option<[bool; 2]> {
    let mut only = three(alloc, Eviction::Value)?;
    let is_back = put_back(&mut only) == [None, Some(Ok(()))];
    Some([is_back, is_whole(&only, alloc)])
}

fn are_whole(alloc: Global) -> Option<[bool; 2]> {
    let mut only = three(alloc, Eviction::Full)?;
    let is_back = put_whole(&mut only) == [None, Some(Ok(()))];
    Some([is_back, is_whole(&only, alloc)])
}

/// What was ejected is put back, and no other document stands there.
#[test]
fn documents_are_put_back(rt: HostRuntime) {
    assert!(rt; are_back(rt.alloc()) == Some([true, true]));
    assert!(rt; are_whole(rt.alloc()) == Some([true, true]));
}

/// Adds metadata for a key without a node and for one with, and what is found then.
fn add_two(only: &mut Only) -> ([Option<Result<(), Short>>; 2], Found, Counts) {
    let added = [only.add(b"c", 3, 500), only.add(b"a", 3, 500)];
    (added, only.stripe.find(b"c"), only.stripe.counts())
}

/// Adds metadata where one block is free and the key takes two.
fn add_past(only: &mut Only) -> (Option<Result<(), Short>>, Counts) {
    let _put = only.put(b"d", 4, &BYTES[..700]);
    let added = only.add(&BYTES[..200], 3, 500);
    (added, only.stripe.counts())
}

fn counts(resident: u32, ejected: u32) -> Counts {
    Counts { resident, ejected }
}

/// Whether a key takes its blocks where so many are free, and ejects nothing.
fn are_added(alloc: Global) -> bool {
    let Some(mut only) = three(alloc, Eviction::Value) else {
        return false;
    };
    let short = Err(Short { free: 1, need: 2 });
    let shown = Found::Ejected(meta(3, 500));
    add_two(&mut only) == ([Some(Ok(())), None], shown, counts(3, 1))
        && add_past(&mut only) == (Some(short), counts(4, 1))
}

#[test]
fn metadata_is_added_without_a_value(rt: HostRuntime) {
    assert!(rt; are_added(rt.alloc()));
}
