// What slots and keys show, and how ages choose the next document to eject.
use super::{BYTES, Only, meta, oldest, only_of, three};
use crate::{Counts, Found, Stripe};
use ep_model::{Eviction, Meta, NoMemory, Out, VbState};
use std::alloc::Global;

/// The metadata of a slot's document, and the first byte of its key.
fn slot(stripe: &Stripe, slot: u32, out: &mut Out) -> (Option<Meta>, Option<u8>) {
    out.cut(0);
    // tells that no key is longer than 250 bytes
    let _free = stripe.free();
    if out.spare() < 250 {
        return (None, None);
    }
    let meta = stripe.slot(slot, out);
    (meta, out.bytes().first().copied())
}

/// What the three slots of documents show, an empty one, and none.
fn slots(stripe: &Stripe, out: &mut Out) -> [(Option<Meta>, Option<u8>); 5] {
    [
        slot(stripe, 0, out),
        slot(stripe, 1, out),
        slot(stripe, 2, out),
        slot(stripe, 3, out),
        slot(stripe, 16, out),
    ]
}

/// Whether they are those of `a`, `b` and the tombstone `t`.
fn are_shown(stripe: &Stripe, out: &mut Out) -> bool {
    slots(stripe, out)
        == [
            (Some(meta(1, 300)), Some(b'a')),
            (Some(meta(2, 128)), Some(b'b')),
            (Some(meta(3, 0)), Some(b't')),
            (None, None),
            (None, None),
        ]
}

/// Whether a document is resident with this value.
pub fn holds(stripe: &Stripe, key: &[u8], value: &[u8], out: &mut Out) -> bool {
    out.cut(0);
    match stripe.find(key) {
        Found::Resident(meta) if meta.len as usize <= out.spare() => {
            stripe.value_to(key, out);
            out.bytes() == value
        }
        _ => false,
    }
}

fn show(alloc: Global) -> Option<[bool; 4]> {
    let only = three(alloc, Eviction::Full)?;
    let Ok(mut out) = Out::new(alloc, 2048) else {
        return None;
    };
    Some([
        are_shown(&only.stripe, &mut out),
        holds(&only.stripe, b"a", &BYTES[..300], &mut out),
        holds(&only.stripe, b"t", b"", &mut out),
        holds(&only.stripe, b"z", b"", &mut out),
    ])
}

#[test]
fn documents_are_shown(rt: HostRuntime) {
    assert!(rt; show(rt.alloc()) == Some([true, true, true, false]));
}

/// Makes all documents older but one, and answers the tombstone's age and which goes next.
fn grow(only: &mut Only, heated: u8, alloc: Global) -> (Option<u8>, Option<u8>) {
    only.stripe.cool();
    only.stripe.heat(&[heated]);
    match oldest(&only.stripe, alloc) {
        Ok(oldest) => (only.stripe.age(b"t"), oldest),
        Err(_) => (None, None),
    }
}

/// The same, one after the other.
fn grown(only: &mut Only, alloc: Global) -> [(Option<u8>, Option<u8>); 4] {
    [
        grow(only, b'z', alloc),
        grow(only, b'a', alloc),
        grow(only, b'a', alloc),
        grow(only, b'b', alloc),
    ]
}

fn ages(stripe: &Stripe) -> [Option<u8>; 3] {
    [stripe.age(b"b"), stripe.age(b"a"), stripe.age(b"z")]
}

/// Whether ages go from 0 to 3, and choose the next.
fn are_chosen(alloc: Global) -> bool {
    let Some(mut only) = three(alloc, Eviction::Value) else {
        return false;
    };
    let wanted = [
        (Some(1), Some(b'a')),
        (Some(2), Some(b'b')),
        (Some(3), Some(b'b')),
        (Some(3), Some(b't')),
    ];
    grown(&mut only, alloc) == wanted && ages(&only.stripe) == [Some(0), Some(1), None]
}

#[test]
fn the_oldest_goes_next(rt: HostRuntime) {
    assert!(rt; are_chosen(rt.alloc()));
}

/// The free blocks and the counts once one of three documents is ejected.
fn left(alloc: Global, eviction: Eviction, key: u8) -> Option<(u32, Counts)> {
    let mut only = three(alloc, eviction)?;
    only.eject(key);
    Some((only.stripe.free(), only.stripe.counts()))
}

/// Whether so many blocks are free then, and so many documents resident and ejected.
fn leaves(left: Option<(u32, Counts)>, free: u32, resident: u32, ejected: u32) -> bool {
    left == Some((free, Counts { resident, ejected }))
}

/// Under value eviction the blocks of a value go, under full eviction and of a tombstone all.
#[test]
fn documents_are_ejected_one_by_one(rt: HostRuntime) {
    assert!(rt; leaves(left(rt.alloc(), Eviction::Value, b'z'), 9, 3, 0));
    assert!(rt; leaves(left(rt.alloc(), Eviction::Value, b'a'), 12, 2, 1));
    assert!(rt; leaves(left(rt.alloc(), Eviction::Value, b'b'), 10, 2, 1));
    assert!(rt; leaves(left(rt.alloc(), Eviction::Value, b't'), 10, 2, 0));
    assert!(rt; leaves(left(rt.alloc(), Eviction::Full, b'a'), 13, 2, 0));
    assert!(rt; leaves(left(rt.alloc(), Eviction::Full, b'b'), 11, 2, 0));
    assert!(rt; leaves(left(rt.alloc(), Eviction::Full, b't'), 10, 2, 0));
}

/// What a slot with no node, one with a key of two pieces and none answer, and the array behind them.
fn key_of(stripe: &Stripe) -> ([Option<u8>; 3], [u8; 250]) {
    let mut into = [9; 250];
    let lens = [
        stripe.key_into(1, &mut into),
        stripe.key_into(0, &mut into),
        stripe.key_into(16, &mut into),
    ];
    (lens, into)
}

/// Whether a key of 200 bytes is written, and what is behind it stays.
fn is_written(alloc: Global) -> bool {
    let Some(mut only) = only_of(alloc, 16, Eviction::Full) else {
        return false;
    };
    let _put = only.put(&BYTES[..200], 1, b"value");
    let (lens, into) = key_of(&only.stripe);
    lens == [None, Some(200), None] && into.starts_with(&BYTES[..200]) && into.ends_with(&[9; 50])
}

#[test]
fn keys_are_written_in_place(rt: HostRuntime) {
    assert!(rt; is_written(rt.alloc()));
}

/// The state and the opened flag, before they are set and then.
fn set(only: &mut Only) -> [(VbState, bool); 2] {
    let began = (only.stripe.state(), only.stripe.is_opened());
    only.stripe.set_state(VbState::Replica);
    only.stripe.set_opened();
    [began, (only.stripe.state(), only.stripe.is_opened())]
}

fn states(alloc: Global) -> Option<[(VbState, bool); 2]> {
    let mut only = only_of(alloc, 16, Eviction::Full)?;
    Some(set(&mut only))
}

#[test]
fn a_state_is_set_and_opening_is_noted(rt: HostRuntime) {
    assert!(rt; states(rt.alloc()) == Some([(VbState::Active, false), (VbState::Replica, true)]));
}
