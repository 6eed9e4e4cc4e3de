// The stage of a vBucket of a world.
ghost use Rattle.std.specs.Prelude.{◌≡◌, ◌<◌, ◌≤◌, length, true, None};
ghost use Rattle.vb_world.specs.declared.data.FixedData.{FixedData};
ghost use Rattle.vb_world.specs.World.{front_in, part_in, has_out, fixed_in};

use crate::data::FixedData;
use crate::world::World;
use ep_model::{Busy, Event, PartName};
use hold_stage::{Beginning, Stage, Stands};

/// The stage of the vBucket `vb` for the caller `caller`. What it does to the world lasts: a part that it doesn't
/// give back stays out with this caller, also once the stage is gone. It takes and gives parts in constant time, and
/// notes an event in time linear in its bytes.
#[derive(Drop)]
pub struct WorldStage<'a, P: Stands + Drop> {
    pub world: &'a mut World<P>,
    pub vb: u16,
    pub caller: u64,
}

impl<P: Stands + Drop> World<P> {
    /// The stage of a vBucket for a caller. Whatever is out with that caller is held there. Constant time.
    pub fn stage(&mut self, vb: u16, caller: u64) -> WorldStage<'_, P>
        requires { vb < length self.old.buckets }
        ensures same_reference { result.world.ghost_name ≡ self.entry.ghost_name }
        ensures world { result.world.now ≡ self.old }
        ensures vb { result.vb ≡ vb }
        ensures caller { result.caller ≡ caller }
    {
        WorldStage {
            world: self,
            vb,
            caller,
        }
    }
}

impl<'a, P: Stands + Drop> Stage for WorldStage<'a, P> {
    type Part = P;

    type Fixed = FixedData<P>;

    ghost front = { λ s. front_in s.world.now s.vb };

    ghost holds = { λ s part. has_out s.world.now s.vb s.caller part };

    ghost is_desk = { λ _. true };

    ghost number = { λ s. s.caller };

    ghost covers = { λ s events bytes. (events ≤ s.world.now.event_room)
        × (bytes ≤ s.world.now.byte_room) };

    ghost losses = { λ s. s.world.now.losses };

    ghost elsewhere = { λ s part. part_in s.world.now s.vb part ≡ None };

    ghost is_telling = { λ _. true };

    ghost tells = { λ s part. part_in s.world.now s.vb part };

    ghost lent = { λ s. s.world.ghost_name };

    ghost fixed = { λ s. fixed_in s.world.now s.vb };

    fn caller(&self) -> u64 {
        self.caller
    }

    fn take(&mut self, part: PartName) -> Result<P, Busy> {
        self.world.take(self.vb, self.caller, part)
    }

    fn note(&mut self, event: &Event) {
        self.world.note(self.vb, event);
    }

    // In one thread nobody else noted anything.
    fn look(&mut self) {
        // what is so of this world is known by this call
        let _count = self.world.count();
    }

    fn begin<B: Beginning>(&mut self) {
        self.world.begin::<B>(self.vb);
    }

    fn give(&mut self, part: PartName, value: P) {
        self.world.give(self.vb, part, value);
    }
}
