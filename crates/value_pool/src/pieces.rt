// The bytes of a chain, block by block.
ghost use Rattle.std.specs.Prelude.{◌≡◌, ◌<◌, [], take, drop, length, slice_index_or, IfSome, IsNone, IsTrue, ◌↔◌};

use crate::pool::BLOCK;
use std::marker::Model;

/// The bytes of a chain that are still to be read, block by block. Contracts see them as one list.
#[derive(Drop)]
pub struct Pieces<'a> {
    region: &'a [[u8; BLOCK]],
    links: &'a [u32],
    block: u32,
    left: u32,
}

impl<'a> Model for Pieces<'a> {
    ghost use Rattle.std.specs.Prelude.{ℕ, List};
    ghost use Rattle.value_pool.specs.Pools.{blocks_of};
    ghost use Rattle.value_pool.specs.Layout.{text, IsRoad};

    ghost Value = { List ℕ };

    ghost view = { λ p. text p.region.now p.links.now (blocks_of p.left) p.left p.block };

    ghost invariant = { λ p. IsRoad p.region.now p.links.now (blocks_of p.left) p.block };
}

impl<'a> Pieces<'a> {
    ghost use Rattle.value_pool.specs.Pools.{blocks_of};
    ghost use Rattle.value_pool.specs.Layout.{text, IsRoad};

    // So many bytes from a block on.
    pub(crate) fn new(
        region: &'a [[u8; BLOCK]],
        links: &'a [u32],
        block: u32,
        left: u32,
    ) -> Pieces<'a>
        requires { IsRoad region.now links.now (blocks_of left) block }
        ensures { result ≡ text region.now links.now (blocks_of left) left block }
    {
        Pieces {
            region,
            links,
            block,
            left,
        }
    }

    /// The bytes of the next block, in constant time: 128, or at the last block as many as are left. None where
    /// all were read.
    pub fn next_piece(&mut self) -> Option<&'a [u8]>
        ensures end { IsNone result ↔ (self.old ≡ []) }
        ensures piece { IfSome result (λ piece. piece.now ≡ take 128 self.old) }
        ensures rest { self.new ≡ drop 128 self.old }
    {
        if self.left == 0 {
            return None;
        }
        let region = self.region;
        let block = self.block as usize;
        let len = (self.left as usize).min(BLOCK);
        self.block = self.links[block];
        self.left -= len as u32;
        Some(&region[block][..len])
    }
}

// Whether the pieces are these bytes.
pub fn is_text(pieces: Pieces, bytes: &[u8]) -> bool
    requires { length pieces ≡ length bytes.now }
    ensures { IsTrue result ↔ (pieces.entry ≡ bytes.now) }
{
    let mut pieces = pieces;
    let mut rest = bytes;
    while let Some(piece) = pieces.next_piece() {
        let (front, behind) = rest.split_at(piece.len());
        if front != piece {
            return false;
        }
        rest = behind;
    }
    true
}
