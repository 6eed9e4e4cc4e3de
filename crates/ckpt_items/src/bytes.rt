// Bytes that go into a pool and come out of it.
ghost use Rattle.std.specs.Prelude.{◌≡◌, ◌+◌, ◌≤◌, ◌++◌, length};
ghost use Rattle.value_pool.specs.Pools.{blocks_of, bytes_at, Puts};

use ep_model::Out;
use value_pool::{Chain, Pool};

// A chain of these bytes, where it is known that they fit.
pub fn put(pool: &mut Pool, bytes: &[u8]) -> Chain
    requires limit { length bytes.now ≤ 1048576 }
    requires fits { blocks_of (length bytes.now) ≤ pool.old.free }
    ensures { Puts pool.old pool.new result bytes.now }
{
    match pool.put(bytes) {
        Ok(chain) => chain,
        Err(_) => unreachable!(),
    }
}

// Appends the bytes of a chain, block by block.
pub fn append(pool: &Pool, chain: &Chain, out: &mut Out)
    requires { length (bytes_at pool.now chain.now) ≤ out.old.spare }
    ensures bytes { out.new.bytes ≡ out.old.bytes ++ bytes_at pool.now chain.now }
    ensures spare { out.new.spare + length (bytes_at pool.now chain.now) ≡ out.old.spare }
{
    let mut pieces = pool.pieces(chain);
    while let Some(piece) = pieces.next_piece() {
        out.push(piece);
    }
}
