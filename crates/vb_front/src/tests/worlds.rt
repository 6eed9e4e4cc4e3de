// A world of one vBucket of one stripe.
ghost use Rattle.std.specs.Prelude.{◌≡◌, ℕ, false, length, None, IfOk};
ghost use Rattle.ep_model.specs.declared.event.PartName.{PartName};
ghost use Rattle.ep_model.specs.Config.{config_fault};
ghost use Rattle.hold_stage.specs.Slots.{bare_front, StandBare};
ghost use Rattle.vb_world.specs.World.{front_in, has_out};
ghost use Rattle.vb_front.specs.Opened.{IsAtHome};
ghost use Rattle.vb_front.specs.Parts.{part_stands};

use crate::{DeskPart, Part, StripePart};
use ckpt_manager::Queue;
use ep_model::{Config, NoMemory};
use fetch_book::Book;
use hash_stripe::Stripe;
use std::alloc::Global;
use vb_world::World;

/// The parts of a vBucket that has nothing.
fn empty_parts(alloc: Global, config: &Config) -> Result<Vec<Part>, NoMemory>
    requires fault { config_fault config.now ≡ None }
    requires only { config.now.stripes ≡ 1 }
    ensures count { IfOk result (λ parts. length parts.items ≡ 3) }
    ensures stand { IfOk result (λ parts. StandBare part_stands config.now 0 parts.items) }
{
    let table = Stripe::new(alloc, 0, config)?;
    let book = Book::new(alloc, 0)?;
    let queue = Queue::new(alloc, config)?;
    let mut parts = Vec::with_capacity(alloc, 3)?;
    parts.push(Part::Stripe(StripePart { table, book }))?;
    parts.push(Part::Queue(queue))?;
    parts.push(Part::Desk(DeskPart { persisted: 0 }))?;
    Ok(parts)
}

/// A world of one vBucket, which hasn't opened.
pub fn one_vbucket(alloc: Global, config: &Config) -> Result<World<Part>, NoMemory>
    requires fault { config_fault config.now ≡ None }
    requires only { config.now.stripes ≡ 1 }
    ensures layout { IfOk result (λ w. w.config ≡ config.now) }
    ensures bare { IfOk result (λ w. front_in w 0 ≡ bare_front config.now 0) }
    ensures home { IfOk result (λ w. (caller : ℕ) (part : PartName) → has_out w 0 caller part
        ≡ false) }
    ensures there { IfOk result (IsAtHome config.now) }
{
    let mut world = World::new(alloc, config)?;
    world.add(empty_parts(alloc, config)?)?;
    Ok(world)
}
