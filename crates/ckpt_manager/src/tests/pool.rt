// A pool by hand, and filled and emptied at random.
use std::alloc::{AllocError, Global};
use value_pool::{Chain, Pool, Short, blocks};

// What is free after each call, and what chains have, where a list of 300 bytes is one block too long.
fn told(pool: &mut Pool) -> Result<[u32; 8], Short> {
    let bytes = [7u8; 300];
    let nothing = pool.put(&bytes[..0])?;
    let at_first = pool.free();
    let two = pool.put(&bytes[..129])?;
    let between = pool.free();
    let (len, none) = (pool.len(&two), pool.len(&nothing));
    let last = pool.piece(&two, 1).len() as u32;
    let (free, need) = match pool.put(&bytes) {
        Ok(_) => (0, 0),
        Err(short) => (short.free, short.need),
    };
    pool.take_back(two);
    pool.take_back(nothing);
    Ok([at_first, between, len, none, last, free, need, pool.free()])
}

// Whether a pool of four blocks tells what it should.
fn is_told(alloc: Global) -> bool {
    let Ok(mut pool) = Pool::new(alloc, 4) else {
        return false;
    };
    told(&mut pool) == Ok([4, 2, 129, 0, 1, 2, 3, 4])
}

#[test]
fn blocks_are_taken_and_given_back(rt: HostRuntime) {
    assert!(rt; is_told(rt.alloc()));
}

// A chain, and that so many times the same byte were put.
#[derive(Drop)]
struct Held {
    chain: Chain,
    fill: u8,
    len: usize,
}

fn draw(seed: &mut u32) -> usize {
    *seed = seed.wrapping_mul(1664525).wrapping_add(1013904223);
    (*seed >> 8) as usize
}

// Whether the chain has its bytes.
fn has(pool: &Pool, one: &Held) -> bool {
    let bytes = [one.fill; 700];
    let wanted = &bytes[..one.len.min(700)];
    let first = pool.pieces(&one.chain).next_piece().unwrap_or(&[]);
    pool.equals(&one.chain, wanted) && wanted.starts_with(first)
}

// Whether each chain has its bytes, and the other of the 40 blocks are free.
fn has_all(pool: &Pool, held: &[Held]) -> bool {
    let mut sum = pool.free();
    for one in held {
        if !has(pool, one) {
            return false;
        }
        sum = sum.wrapping_add(blocks(pool.len(&one.chain)));
    }
    sum == 40
}

// Takes one back or puts one, as it is drawn.
fn call(pool: &mut Pool, held: &mut Vec<Held>, seed: &mut u32) -> Result<(), AllocError> {
    let number = draw(seed);
    if number % 3 == 0 && !held.is_empty() {
        let Held { chain, .. } = held.swap_remove(number % held.len());
        pool.take_back(chain);
        return Ok(());
    }
    let (fill, len) = ((number % 251) as u8, draw(seed) % 700);
    match pool.put(&[fill; 700][..len]) {
        Ok(chain) => held.push(Held { chain, fill, len })?,
        Err(_) => {}
    }
    Ok(())
}

// Whether each of so many calls leaves what was put.
fn is_kept(pool: &mut Pool, held: &mut Vec<Held>, calls: u32) -> Result<bool, AllocError> {
    let mut seed = 11;
    for _step in 0..calls {
        call(pool, held, &mut seed)?;
        if !has_all(pool, held) {
            return Ok(false);
        }
    }
    Ok(true)
}

// Whether 40 blocks keep what is put, and all are free once all was taken back.
fn is_emptied(alloc: Global) -> bool {
    let Ok(mut pool) = Pool::new(alloc, 40) else {
        return false;
    };
    let mut held = Vec::new(alloc);
    let Ok(true) = is_kept(&mut pool, &mut held, 400) else {
        return false;
    };
    for Held { chain, .. } in held {
        pool.take_back(chain);
    }
    pool.free() == 40
}

#[test]
fn random_calls_meet_a_plain_list(rt: HostRuntime) {
    assert!(rt; is_emptied(rt.alloc()));
}
