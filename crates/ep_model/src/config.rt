// How a bucket is laid out.
ghost use Rattle.std.specs.Prelude.{◌≡◌, ◌+◌, ◌*◌, ◌≤◌, ◌||◌, nat_lt};
ghost use Rattle.ep_model.specs.Config.{config_fault, is_outside, total_blocks};

/// What the pager takes of a clean document: its value alone, or its metadata too.
#[derive(Clone, Copy, Debug, PartialEq, Eq)]
pub enum Eviction {
    Value,
    Full,
}

/// What of a command's words or parts can be out of its limit, in the order in which they are looked at.
#[derive(Clone, Copy, Debug, PartialEq, Eq)]
pub enum Field {
    Vbuckets,
    Stripes,
    Blocks,
    CkptBlocks,
    CkptMax,
    Total,
    Keepers,
    Clocks,
    Gates,
    Workers,
    Frames,
}

/// A bucket's layout. Blocks are of 128 bytes: `blocks` for each stripe's documents, `ckpt_blocks` for each
/// vBucket's checkpoints. `ckpt_max` bounds the distinct keys of a checkpoint. Under `early` clients are
/// answered before warmup is done.
#[derive(Clone, Copy, Debug, PartialEq, Eq)]
pub struct Config {
    pub vbuckets: u16,
    pub stripes: u16,
    pub blocks: u32,
    pub ckpt_blocks: u32,
    pub ckpt_max: u32,
    pub eviction: Eviction,
    pub early: bool,
}

/// Why a bucket wasn't made.
#[derive(Clone, Copy, Debug, PartialEq, Eq)]
pub enum OpenFault {
    /// This field of its layout is out of its limit.
    BadConfig(Field),
    NoMemory,
}

/// How many vBuckets a bucket has at most.
pub const MAX_VBUCKETS: u32 = 1024;

/// How many stripes a vBucket has at most.
pub const MAX_STRIPES: u32 = 64;

/// How many blocks a stripe and the checkpoints of a vBucket have at least.
pub const MIN_BLOCKS: u32 = 16;

/// How many blocks a stripe, the checkpoints of a vBucket and a whole bucket have at most: 2 GiB.
pub const MAX_BLOCKS: u32 = 16_777_216;

/// How many distinct keys a checkpoint holds at most.
pub const MAX_CKPT: u32 = 100_000;

fn is_outside(number: u32, least: u32, most: u32) -> bool
    ensures { result ≡ is_outside number least most }
{
    number < least || number > most
}

impl Config {
    /// The first field that is out of its limit, in the order of `Field`; `Total` is the sum of all blocks.
    pub fn fault(&self) -> Option<Field>
        ensures { result ≡ config_fault self.now }
    {
        if is_outside(u32::from(self.vbuckets), 1, MAX_VBUCKETS) {
            Some(Field::Vbuckets)
        } else if is_outside(u32::from(self.stripes), 1, MAX_STRIPES) {
            Some(Field::Stripes)
        } else if is_outside(self.blocks, MIN_BLOCKS, MAX_BLOCKS) {
            Some(Field::Blocks)
        } else if is_outside(self.ckpt_blocks, MIN_BLOCKS, MAX_BLOCKS) {
            Some(Field::CkptBlocks)
        } else if is_outside(self.ckpt_max, 1, MAX_CKPT) {
            Some(Field::CkptMax)
        } else if self.total_blocks() > u128::from(MAX_BLOCKS) {
            Some(Field::Total)
        } else {
            None
        }
    }

    /// The blocks of all vBuckets.
    fn total_blocks(&self) -> u128
        ensures { result ≡ total_blocks self.now }
    {
        let of_stripes = u128::from(self.stripes) * u128::from(self.blocks);
        u128::from(self.vbuckets) * (of_stripes + u128::from(self.ckpt_blocks))
    }
}
