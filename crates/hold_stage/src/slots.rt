// Where a part lies where all parts of a vBucket are kept.
ghost use Rattle.std.specs.Prelude.{◌≡◌, ◌≤◌};
ghost use Rattle.hold_stage.specs.Slots.{slot_of};

use ep_model::{Config, PartName};

/// The slot of a part: the stripes in order, the queue and the desk. Constant time.
pub fn slot_of(config: &Config, part: PartName) -> usize
    ensures slot { result ≡ slot_of config.now part }
    ensures small { result ≤ 65536 }
{
    let stripes = usize::from(config.stripes);
    match part {
        PartName::Stripe(stripe) => usize::from(stripe),
        PartName::Queue => stripes,
        PartName::Desk => stripes + 1,
    }
}
