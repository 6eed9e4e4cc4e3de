// A core, its steps and lists of them.
ghost use Rattle.std.specs.Prelude.{◌≡◌, ◌+◌, ◌<◌, length, map, slice_get, Some, None, IsSome, IfOk, OnOk, OnErr};
ghost use Rattle.ep_model.specs.declared.event.PartName.TheVariants.{Stripe};
ghost use Rattle.ep_model.specs.Limits.{max_value};
ghost use Rattle.vb_world.specs.World.{part_in};
ghost use Rattle.ep_drill.specs.Callers.{caller_data};
ghost use Rattle.ep_drill.specs.Fetches.{HasWaiting};
ghost use Rattle.ep_drill.specs.Core.{core_data, Interleaves, GoesOn, LacksEventRoom};
ghost use Rattle.ep_drill.specs.Works.{TakesAt, CommitsAt, MarksAt, FetchesAt, MergesAt};
ghost use Rattle.ep_drill.specs.Stepped.{BenchIs, IsBenched, IsFronted, IsNoBucket, IsNowhere, IsPagedAt, Ran, RanSome, Spares, Stepped, TakesMemory, TurnTakes};

use crate::bench::Bench;
use crate::choice::{Answer, StepChoice};
use crate::owned::Caller;
use crate::part::Part;
use crate::stored::{commit_at, merge_at, read_at, take_at};
use crate::turn::{answer_of, try_next};
use crate::worked::{mark_at, page_at};
use ep_model::limits::END_OF_MOMENTS;
use ep_model::{Config, NoMemory, Out};
use kv_keeper::Keeper;
use std::alloc::Global;
use std::marker::Model;
use vb_world::{History, World};

/// The vBuckets of a bucket with all that works on them, in one thread: their parts and histories, the desks over
/// their stores, and the callers with their calls. It makes one step at a time, in any order that it is told.
#[derive(Drop)]
pub struct Core<K: Keeper> {
    pub(crate) config: Config,
    pub(crate) world: World<Part>,
    pub(crate) benches: Vec<Bench<K>>,
    pub(crate) callers: Vec<Caller>,
    pub(crate) value: Out,
}

impl<K: Keeper> Model for Core<K> {
    ghost use Rattle.std.specs.Prelude.{◌≡◌, ◌+◌, length};
    ghost use Rattle.std.specs.Coded.{codes};
    ghost use Rattle.ep_model.specs.Limits.{max_value};
    ghost use Rattle.kv_keeper.specs.Content.{coded_keeper};
    ghost use Rattle.ep_drill.specs.declared.data.CoreData.{CoreData};
    ghost use Rattle.ep_drill.specs.Core.{core_data, Interleaves};

    ghost Value = { CoreData };

    ghost coded = { Prim.hlevel (codes, coded_keeper) };

    ghost view = { λ c. core_data c.config c.world c.benches.items c.callers.items };

    ghost invariant = { λ c. Interleaves
        (core_data c.config c.world c.benches.items c.callers.items)
        × (c.value.spare + length c.value.bytes ≡ max_value) };
}

impl<K: Keeper> Core<K> {
    // Tries a caller's next call.
    fn front(&mut self, alloc: Global, number: u16, now: u64) -> Result<Answer, NoMemory>
        ensures interleaves { Interleaves self.new }
        ensures goes_on { GoesOn self.old self.new }
        ensures fronted { IfOk result (IsFronted self.old self.new number now) }
        ensures err { OnErr result (Spares self.old self.new × TurnTakes self.old number now) }
    {
        let Some(caller) = self.callers.get_mut(usize::from(number)) else {
            return Ok(Answer::Nothing);
        };
        if now >= END_OF_MOMENTS {
            return Ok(Answer::Nothing);
        }
        let tried = try_next(
            alloc,
            &self.config,
            &mut self.world,
            u64::from(number),
            caller,
            now,
            &mut self.value,
        );
        answer_of(tried)
    }

    // Copies what isn't stored yet.
    fn take_batch(&mut self, alloc: Global, vb: u16) -> Answer
        ensures interleaves { Interleaves self.new }
        ensures goes_on { GoesOn self.old self.new }
        ensures taken { IsBenched self.old self.new vb (IsNoBucket self.old vb)
            (TakesAt self.old.config vb) result }
    {
        let Some(bench) = self.benches.get_mut(usize::from(vb)) else {
            return Answer::Nothing;
        };
        take_at(alloc, &self.config, &mut self.world, vb, bench)
    }

    // Commits what was copied.
    fn commit(&mut self, alloc: Global, vb: u16) -> Result<Answer, NoMemory>
        ensures interleaves { Interleaves self.new }
        ensures goes_on { GoesOn self.old self.new }
        ensures committed { IfOk result (IsBenched self.old self.new vb (IsNoBucket self.old vb)
            (CommitsAt self.old.config vb)) }
        ensures err { OnErr result (Spares self.old self.new × BenchIs self.old vb
            (λ bench. IsSome bench.batch) × LacksEventRoom self.old.world) }
    {
        let Some(bench) = self.benches.get_mut(usize::from(vb)) else {
            return Ok(Answer::Nothing);
        };
        commit_at(alloc, &self.config, &mut self.world, vb, bench)
    }

    // Tells a stripe what is stored.
    fn mark(&mut self, vb: u16, stripe: u16) -> Result<Answer, NoMemory>
        ensures interleaves { Interleaves self.new }
        ensures goes_on { GoesOn self.old self.new }
        ensures marked { IfOk result (IsBenched self.old self.new vb (IsNowhere self.old vb stripe)
            (MarksAt self.old.config vb stripe)) }
        ensures err { OnErr result (Spares self.old self.new × (vb < self.old.config.vbuckets)
            × (stripe < self.old.config.stripes) × LacksEventRoom self.old.world) }
    {
        let Some(bench) = self.benches.get(usize::from(vb)) else {
            return Ok(Answer::Nothing);
        };
        if stripe >= self.config.stripes {
            return Ok(Answer::Nothing);
        }
        mark_at(&self.config, &mut self.world, vb, bench, stripe)
    }

    // Ejects values.
    fn page(&mut self, vb: u16, stripe: u16) -> Answer
        ensures interleaves { Interleaves self.new }
        ensures goes_on { GoesOn self.old self.new }
        ensures paged { IsPagedAt self.old self.new vb stripe result }
    {
        if vb >= self.config.vbuckets || stripe >= self.config.stripes {
            return Answer::Nothing;
        }
        Answer::Paged(page_at(&self.config, &mut self.world, vb, stripe))
    }

    // Reads a value that a call waits for.
    fn read(&mut self, alloc: Global, vb: u16, stripe: u16) -> Result<Answer, NoMemory>
        ensures interleaves { Interleaves self.new }
        ensures goes_on { GoesOn self.old self.new }
        ensures read { IfOk result (IsBenched self.old self.new vb (IsNowhere self.old vb stripe)
            (FetchesAt self.old.config vb stripe)) }
        ensures err { OnErr result (Spares self.old self.new × BenchIs self.old vb
            (λ bench. bench.desk.doubt ≡ None)
            × HasWaiting (part_in self.old.world vb (Stripe stripe))) }
    {
        let Some(bench) = self.benches.get_mut(usize::from(vb)) else {
            return Ok(Answer::Nothing);
        };
        if stripe >= self.config.stripes {
            return Ok(Answer::Nothing);
        }
        read_at(
            alloc,
            &self.config,
            &mut self.world,
            vb,
            bench,
            stripe,
            &mut self.value,
        )
    }

    // Hands what was read to whoever waits for it.
    fn merge(&mut self, vb: u16, stripe: u16) -> Result<Answer, NoMemory>
        ensures interleaves { Interleaves self.new }
        ensures goes_on { GoesOn self.old self.new }
        ensures merged { IfOk result (IsBenched self.old self.new vb (IsNowhere self.old vb stripe)
            (MergesAt self.old.config vb stripe)) }
        ensures err { OnErr result (Spares self.old self.new × (stripe < self.old.config.stripes)
            × BenchIs self.old vb (λ bench. slice_get bench.reads stripe ≡ Some None → ⊥)
            × LacksEventRoom self.old.world) }
    {
        let Some(bench) = self.benches.get_mut(usize::from(vb)) else {
            return Ok(Answer::Nothing);
        };
        if stripe >= self.config.stripes {
            return Ok(Answer::Nothing);
        }
        merge_at(&self.config, &mut self.world, vb, bench, stripe)
    }

    /// Makes a step. It answers `Nothing`, and changes nothing, where there is no such vBucket, stripe or caller,
    /// where `now` is 2^62 or later, where there is no call, batch or read for it, and where a read comes while it is
    /// in doubt what the store holds. At an error memory was wanting, and nothing has changed. A step costs what its call on the parts costs: a Front step time
    /// linear in the documents of one stripe, in these flat lists.
    pub fn step(&mut self, alloc: Global, choice: StepChoice) -> Result<Answer, NoMemory>
        ensures interleaves { Interleaves self.new }
        ensures goes_on { GoesOn self.old self.new }
        ensures stepped { IfOk result (Stepped self.old self.new choice) }
        ensures err { OnErr result (Spares self.old self.new × TakesMemory self.old choice) }
    {
        // what is so of this core is known by a read of its layout
        let _ = &self.config;
        match choice {
            StepChoice::Front { caller, now } => self.front(alloc, caller, now),
            StepChoice::TakeBatch { vb } => Ok(self.take_batch(alloc, vb)),
            StepChoice::Commit { vb } => self.commit(alloc, vb),
            StepChoice::Mark { vb, stripe } => self.mark(vb, stripe),
            StepChoice::Read { vb, stripe } => self.read(alloc, vb, stripe),
            StepChoice::Merge { vb, stripe } => self.merge(vb, stripe),
            StepChoice::Page { vb, stripe } => Ok(self.page(vb, stripe)),
            StepChoice::Warm { .. } | StepChoice::Expire { .. } => Ok(Answer::Nothing),
        }
    }

    /// What happened to its vBuckets. All else is dropped.
    pub fn into_history(self) -> History
        ensures { result ≡ self.world.history }
    {
        self.world.into_history()
    }
}

/// Makes steps in order: what each answered. At an error memory was wanting, and some of them were made, from the first
/// on.
pub fn run_steps<K: Keeper>(
    alloc: Global,
    core: &mut Core<K>,
    steps: &[StepChoice],
) -> Result<Vec<Answer>, NoMemory>
    ensures interleaves { Interleaves core.new }
    ensures goes_on { GoesOn core.old core.new }
    ensures ran { IfOk result (λ answers. Ran core.old core.new steps.now answers.items) }
    ensures err { OnErr result (RanSome core.old core.new steps.now) }
{
    // what is so of this core is known by a read of its layout
    let _ = &core.config;
    let Ok(mut answers) = Vec::with_capacity(alloc, steps.len()) else {
        return Err(NoMemory);
    };
    for choice in steps {
        match core.step(alloc, *choice) {
            Ok(answer) => answers.push_reserved(answer),
            Err(NoMemory) => return Err(NoMemory),
        }
    }
    Ok(answers)
}
