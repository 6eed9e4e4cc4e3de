// The blocks of a region, one behind the other along their links.
ghost use Rattle.std.specs.Prelude.{◌≡◌, ◌<◌, ◌≤◌, ◌-◌, ℕ, length};
ghost use Rattle.value_pool.specs.Pools.{blocks_of};
ghost use Rattle.value_pool.specs.Layout.{beyond, laid, written, IsRoad};

use crate::pool::BLOCK;

/// How many blocks so many bytes take.
pub fn blocks(len: u32) -> u32
    ensures { result ≡ blocks_of len }
{
    len.div_ceil(BLOCK as u32)
}

// The block that stands so many behind another.
pub fn beyond(links: &[u32], first: u32, count: u32) -> u32
    requires { (j : ℕ) → j < count → beyond links.now j first < length links.now }
    ensures { result ≡ beyond links.now count first }
{
    let mut block = first;
    for _step in 0..count {
        block = links[block as usize];
    }
    block
}

// Puts a piece at the beginning of a block.
fn lay(block: &mut [u8; BLOCK], piece: &[u8])
    requires { length piece.now ≤ 128 }
    ensures { block.new ≡ laid piece.now block.old }
{
    block[..piece.len()].copy_from_slice(piece);
}

// Puts the bytes into the blocks from `first` on, and answers the block behind them.
pub fn write(region: &mut [[u8; BLOCK]], links: &[u32], first: u32, bytes: &[u8]) -> u32
    requires { IsRoad region.old links.now (blocks_of (length bytes.now)) first }
    ensures region { region.new ≡ written region.old links.now (blocks_of (length bytes.now)) first
        bytes.now }
    ensures behind { result ≡ beyond links.now (blocks_of (length bytes.now)) first }
{
    let mut block = first;
    let mut rest = bytes;
    while !rest.is_empty() {
        let (piece, behind) = rest.split_at(BLOCK.min(rest.len()));
        lay(&mut region[block as usize], piece);
        block = links[block as usize];
        rest = behind;
    }
    block
}
