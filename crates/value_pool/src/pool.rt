// A region of blocks, its chains and its free blocks.
ghost use Rattle.std.specs.Prelude.{◌≡◌, ◌+◌, ◌*◌, ◌<◌, ◌≤◌, length, take, drop, IfOk, IfErr, OnErr, IsOk, IsTrue, ◌↔◌};
ghost use Rattle.value_pool.specs.Pools.{blocks_of, bytes_at, taken_blocks, all_free, Puts, TakesBack};

use crate::PoolNoMemory;
use crate::pieces::{Pieces, is_text};
use crate::region::{beyond, blocks, write};
use std::alloc::Global;
use std::marker::Model;

/// The bytes of a block.
pub const BLOCK: usize = 128;

/// What a list of bytes stands in, in the pool that gave it: some blocks, linked one behind the other. Contracts see
/// the number of its first block. It can't be copied. Where it is dropped, its blocks stay taken.
#[derive(Drop)]
pub struct Chain {
    number: u32,
}

impl Model for Chain {
    ghost use Rattle.std.specs.Prelude.{ℕ};

    ghost Value = { ℕ };

    ghost view = { λ c. c.number };
}

/// A list of bytes that needs more blocks than are free.
#[derive(Clone, Copy, Debug, PartialEq, Eq)]
pub struct Short {
    pub free: u32,
    pub need: u32,
}

/// A region of blocks of 128 bytes, all of them taken by `new`. Contracts see a map from the chains to their bytes,
/// and how many blocks are free. What is free and what is in a chain is told apart by the pool itself: no block is in
/// two chains, and none of a chain is free.
#[derive(Drop)]
pub struct Pool {
    region: Vec<[u8; BLOCK]>,
    // Behind a block the next one of its chain, or the next free one.
    links: Vec<u32>,
    // How many bytes the chain has that begins at a block; 0 where none begins.
    lens: Vec<u32>,
    first_free: u32,
    free: u32,
}

impl Model for Pool {
    ghost use Rattle.value_pool.specs.Pools.{Held};
    ghost use Rattle.value_pool.specs.Layout.{held_of, IsParted};

    ghost Value = { Held };

    ghost view = { λ p. held_of p.region.items p.links.items p.lens.items p.free };

    ghost invariant = { λ p. IsParted p.region.items p.links.items p.lens.items p.first_free
        p.free };
}

impl Pool {
    /// A pool of so many blocks, all free. Its cost is linear in their number.
    pub fn new(alloc: Global, blocks: u32) -> Result<Pool, PoolNoMemory>
        requires { blocks ≤ 16777216 }
        ensures { IfOk result (λ pool. pool ≡ all_free blocks) }
    {
        let count = blocks as usize;
        let mut region = Vec::with_capacity(alloc, count)?;
        let mut links = Vec::with_capacity(alloc, count)?;
        for block in 0..blocks {
            region.push([0u8; BLOCK])?;
            links.push(block + 1)?;
        }
        Ok(Pool {
            region,
            links,
            lens: vec![in alloc; 0u32; count]?,
            first_free: 0,
            free: blocks,
        })
    }

    /// Puts bytes into free blocks. Its cost is linear in their number.
    ///
    /// # Errors
    /// [`Short`] exactly where fewer blocks are free than the bytes need; the pool stays as it was.
    pub fn put(&mut self, bytes: &[u8]) -> Result<Chain, Short>
        requires { length bytes.now ≤ 1048576 }
        ensures enough { blocks_of (length bytes.now) ≤ self.old.free → IsOk result }
        ensures puts { IfOk result (λ chain. Puts self.old self.new chain bytes.now) }
        ensures short { IfErr result (λ s. (s.free ≡ self.old.free)
            × (s.need ≡ blocks_of (length bytes.now)) × (s.free < s.need)) }
        ensures err { OnErr result (self.new ≡ self.old) }
    {
        let len = bytes.len() as u32;
        let need = blocks(len);
        if self.free < need {
            return Err(Short {
                free: self.free,
                need,
            });
        }
        if len == 0 {
            return Ok(Chain {
                number: self.lens.len() as u32,
            });
        }
        let number = self.first_free;
        self.first_free = write(&mut self.region, &self.links, number, bytes);
        self.lens[number as usize] = len;
        self.free -= need;
        Ok(Chain { number })
    }

    /// Makes the blocks of a chain free again. Its cost is linear in their number.
    pub fn take_back(&mut self, chain: Chain)
        ensures { TakesBack self.old self.new chain }
    {
        let len = self.len(&chain);
        if len == 0 {
            return;
        }
        let need = blocks(len);
        let last = beyond(&self.links, chain.number, need - 1);
        self.links[last as usize] = self.first_free;
        self.first_free = chain.number;
        self.lens[chain.number as usize] = 0;
        self.free += need;
    }

    /// How many bytes a chain has, in constant time.
    pub fn len(&self, chain: &Chain) -> u32
        ensures { result ≡ length (bytes_at self.now chain.now) }
    {
        self.lens.get(chain.number as usize).copied().unwrap_or(0)
    }

    /// The bytes of a chain, to be read block by block, in constant time.
    pub fn pieces(&self, chain: &Chain) -> Pieces<'_>
        ensures { result ≡ bytes_at self.now chain.now }
    {
        Pieces::new(&self.region, &self.links, chain.number, self.len(chain))
    }

    /// The bytes of a chain in its block `index`, counted from 0. Its cost is linear in `index`; [`Pool::pieces`] lends
    /// one block after the other.
    pub fn piece(&self, chain: &Chain, index: u32) -> &[u8]
        requires { index < blocks_of (length (bytes_at self.now chain.now)) }
        ensures { result.now ≡ take 128 (drop (128 * index) (bytes_at self.now chain.now)) }
    {
        let mut pieces = self.pieces(chain);
        for _step in 0..index {
            let _ = pieces.next_piece();
        }
        pieces.next_piece().unwrap()
    }

    /// Whether a chain has exactly these bytes. Its cost is linear in their number, and constant where a chain is of
    /// another length.
    pub fn equals(&self, chain: &Chain, bytes: &[u8]) -> bool
        ensures { IsTrue result ↔ (bytes_at self.now chain.now ≡ bytes.now) }
    {
        if self.len(chain) as usize != bytes.len() {
            return false;
        }
        is_text(self.pieces(chain), bytes)
    }

    /// How many blocks are free, in constant time: those that no chain has.
    pub fn free(&self) -> u32
        ensures free { result ≡ self.now.free }
        ensures exact { result + taken_blocks self.now.texts ≡ length self.now.texts }
    {
        self.free
    }
}
