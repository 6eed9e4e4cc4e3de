// Room that is made by ejecting.
use super::{BYTES, Only, meta, oldest, only_of};
use crate::{Found, Short};
use ep_model::Eviction;
use std::alloc::Global;

/// What is found of a document of fourteen blocks, asked for room for another one of three, before it is stored and then.
fn made(only: &mut Only) -> [(Result<(), Short>, Found); 2] {
    let _put = only.put(b"a", 1, &BYTES[..1664]);
    let dirty = only.stripe.room_for(b"b", 256);
    let kept = only.stripe.find(b"a");
    only.mark(1);
    let clean = only.stripe.room_for(b"b", 256);
    [(dirty, kept), (clean, only.stripe.find(b"a"))]
}

/// Whether this is found of it in the end, of sixteen blocks, and so many are free.
fn makes_room(alloc: Global, eviction: Eviction, found: Found, free: u32) -> bool {
    let Some(mut only) = only_of(alloc, 16, eviction) else {
        return false;
    };
    let short = Err(Short { free: 2, need: 3 });
    made(&mut only) == [(short, Found::Resident(meta(1, 1664))), (Ok(()), found)]
        && only.stripe.free() == free
}

/// A document goes for another only where it is stored.
#[test]
fn room_is_made_by_ejecting(rt: HostRuntime) {
    assert!(rt; makes_room(rt.alloc(), Eviction::Full, Found::Nothing, 16));
    let ejected = Found::Ejected(meta(1, 1664));
    assert!(rt; makes_room(rt.alloc(), Eviction::Value, ejected, 15));
}

/// Puts seven documents of nine blocks, all stored.
fn put_seven(only: &mut Only) {
    for key in 1..8u8 {
        let _put = only.put(&[key], u64::from(key), &BYTES[..1024]);
    }
    only.mark(7);
}

/// Ejects the oldest until at most 48 of 64 blocks are used, and answers how many went.
fn page(only: &mut Only, alloc: Global) -> u32 {
    let mut ejected = 0u32;
    for _ in 0..7 {
        if only.stripe.free() < 64 - 48 {
            if let Ok(Some(key)) = oldest(&only.stripe, alloc) {
                only.eject(key);
                ejected = ejected.wrapping_add(1);
            }
        }
    }
    ejected
}

/// How many of seven go, and how many blocks are free then.
fn paged(alloc: Global, eviction: Eviction) -> Option<(u32, u32)> {
    let mut only = only_of(alloc, 64, eviction)?;
    put_seven(&mut only);
    let ejected = page(&mut only, alloc);
    Some((ejected, only.stripe.free()))
}

#[test]
fn a_pager_ejects_two_of_seven(rt: HostRuntime) {
    assert!(rt; paged(rt.alloc(), Eviction::Full) == Some((2, 64 - 45)));
    assert!(rt; paged(rt.alloc(), Eviction::Value) == Some((2, 64 - 47)));
}
