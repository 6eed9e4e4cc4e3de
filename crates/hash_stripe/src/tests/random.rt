// Random calls on a stripe beside a plain program.
use super::plain::Plain;
use super::{BYTES, Only, only_of};
use crate::Stripe;
use ep_model::Eviction;
use std::alloc::Global;

fn draw(seed: &mut u32) -> u32 {
    *seed = seed.wrapping_mul(1664525).wrapping_add(1013904223);
    *seed >> 8
}

/// Puts a document on both, and answers whether both or neither has room for it.
fn put(only: &mut Only, plain: &mut Plain, key: u8, seqno: u64, len: usize) -> bool {
    let value = &BYTES[..len % 2048];
    only.put(&[key], seqno, value) == plain.put(key, seqno, value.len() as u32)
}

/// One call on both, and whether both answer the same.
fn step(only: &mut Only, plain: &mut Plain, seqno: u64, number: u32) -> bool {
    let key = (number % 8) as u8;
    match number / 8 % 9 {
        0 => {
            only.mark(seqno);
            plain.mark(seqno);
        }
        1 => {
            only.stripe.cool();
            plain.set_ages(None);
        }
        2 => {
            only.stripe.heat(&[key]);
            plain.set_ages(Some(key));
        }
        3 => {
            only.eject(key);
            plain.eject(key);
        }
        _ => return put(only, plain, key, seqno, (number / 72 % 12 * 113) as usize),
    }
    true
}

/// Whether both show the same.
fn is_same(stripe: &Stripe, plain: &Plain) -> bool {
    for key in 0..8u8 {
        if stripe.find(&[key]) != plain.find(key) || stripe.age(&[key]) != plain.age(key) {
            return false;
        }
    }
    stripe.free() == plain.free_for(8) && stripe.counts() == plain.counts()
}

/// Whether a stripe and the plain program go alike through 399 calls.
fn go_alike(only: &mut Only, plain: &mut Plain) -> bool {
    let mut seed = 11;
    for seqno in 1..400u64 {
        if !step(only, plain, seqno, draw(&mut seed)) || !is_same(&only.stripe, plain) {
            return false;
        }
    }
    true
}

fn meets(alloc: Global, eviction: Eviction) -> bool {
    let Some(mut only) = only_of(alloc, 40, eviction) else {
        return false;
    };
    go_alike(&mut only, &mut Plain::new(eviction))
}

#[test]
fn random_calls_meet_a_plain_program(rt: HostRuntime) {
    assert!(rt; meets(rt.alloc(), Eviction::Full));
    assert!(rt; meets(rt.alloc(), Eviction::Value));
}
