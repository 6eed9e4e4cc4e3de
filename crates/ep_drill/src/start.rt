// How a core is made, and how it gets calls.
ghost use Rattle.std.specs.Prelude.{◌≡◌, ◌<◌, ℕ, length, map, None, IfOk, IfErr, OnOk, OnErr};
ghost use Rattle.ep_model.specs.declared.config.Eviction.TheVariants.{Value as ValueEviction};
ghost use Rattle.ep_model.specs.Config.{config_fault};
ghost use Rattle.ep_model.specs.History.{call_data};
ghost use Rattle.ep_model.specs.Limits.{IsWithin};
ghost use Rattle.vb_world.specs.World.{Sound};
ghost use Rattle.ep_drill.specs.Parts.{part_stands};
ghost use Rattle.ep_drill.specs.Callers.{owned_data, loaded_data, caller_data};
ghost use Rattle.ep_drill.specs.Core.{bench_data, Ready, Interleaves};
ghost use Rattle.ep_drill.specs.Opens.{copies, idle, reads_in, bench_over, AllTellEmpty, FirstOpened, IsRefusal, loaded_at, CanBeLoaded, IsLoaded};

use crate::bench::Bench;
use crate::engine::Core;
use crate::fetched::Fetched;
use crate::open::add_opened;
use crate::owned::{Caller, Loaded, OwnedCall, OwnedKey, OwnedSet};
use crate::part::Part;
use ep_model::limits::MAX_VALUE;
use ep_model::{Call, Config, NoMemory, OpenFault, Out};
use kv_keeper::{Desk, Keeper};
use std::alloc::Global;
use vb_world::World;

// So many callers with nothing to call.
fn idle_callers(alloc: Global, count: u16) -> Result<Vec<Caller>, NoMemory>
    ensures { IfOk result (λ callers. map caller_data callers.items ≡ copies count idle) }
{
    let mut callers = Vec::with_capacity(alloc, usize::from(count))?;
    for _number in 0..count {
        callers.push(Caller {
            calls: Vec::new(alloc),
            answered: 0,
            prior: None,
        })?;
    }
    Ok(callers)
}

// For each stripe no read.
fn no_reads(alloc: Global, stripes: u16) -> Result<Vec<Option<Fetched>>, NoMemory>
    ensures { IfOk result (λ reads. reads.items ≡ copies stripes None) }
{
    let mut reads = Vec::with_capacity(alloc, usize::from(stripes))?;
    for _stripe in 0..stripes {
        reads.push(None)?;
    }
    Ok(reads)
}

// For each stripe of each vBucket no read.
fn all_reads(alloc: Global, config: &Config) -> Result<Vec<Vec<Option<Fetched>>>, NoMemory>
    ensures { IfOk result (λ reads.
        map reads_in reads.items ≡ copies config.now.vbuckets (copies config.now.stripes None)) }
{
    let vbuckets = config.vbuckets;
    let stripes = config.stripes;
    let mut reads = Vec::with_capacity(alloc, usize::from(vbuckets))?;
    for _vb in 0..vbuckets {
        reads.push(no_reads(alloc, stripes)?)?;
    }
    Ok(reads)
}

// A call of its own with the same key and value.
fn copy_call(alloc: Global, call: &Call) -> Result<OwnedCall, NoMemory>
    requires served { CanBeLoaded (call_data call.now) }
    requires within { IsWithin (call_data call.now) }
    ensures { IfOk result (λ owned. owned_data owned ≡ call_data call.now) }
{
    match *call {
        Call::Get { key } => Ok(OwnedCall::Get(OwnedKey {
            bytes: key.to_vec(alloc)?,
        })),
        Call::Store {
            key,
            value,
            flags,
            expiration,
            cas,
            ..
        } => {
            let key = OwnedKey {
                bytes: key.to_vec(alloc)?,
            };
            Ok(OwnedCall::Set(OwnedSet {
                key,
                value: value.to_vec(alloc)?,
                flags,
                expiration,
                cas,
            }))
        }
        _ => unreachable!(),
    }
}

// Puts a call last in the list of one of the callers.
fn push_call(callers: &mut Vec<Caller>, number: u16, loaded: Loaded) -> Result<(), NoMemory>
    requires { number < length callers.old.items }
    ensures ok { OnOk result (map caller_data callers.new.items
        ≡ loaded_at number (loaded_data loaded) (map caller_data callers.old.items)) }
    ensures err { OnErr result (map caller_data callers.new.items
        ≡ map caller_data callers.old.items) }
{
    let caller = &mut callers[usize::from(number)];
    match caller.calls.push(loaded) {
        Ok(()) => Ok(()),
        Err(_) => Err(NoMemory),
    }
}

// A world of new vBuckets, each of which has opened.
fn open_world(alloc: Global, config: &Config) -> Result<World<Part>, NoMemory>
    requires fault { config_fault config.now ≡ None }
    requires eviction { config.now.eviction ≡ ValueEviction }
    ensures ready { IfOk result (Ready config.now) }
    ensures opened { IfOk result (FirstOpened config.now config.now.vbuckets) }
    ensures sound { IfOk result (Sound part_stands) }
{
    let vbuckets = config.vbuckets;
    let Ok(mut world) = World::new(alloc, config) else {
        return Err(NoMemory);
    };
    for _vb in 0..vbuckets {
        let Ok(()) = add_opened(alloc, config, &mut world) else {
            return Err(NoMemory);
        };
    }
    Ok(world)
}

// A bench over each keeper, with the reads that go with it; the keepers come back where memory is wanting.
fn benches_of<K: Keeper>(
    alloc: Global,
    keepers: Vec<K>,
    reads: Vec<Vec<Option<Fetched>>>,
) -> Result<Vec<Bench<K>>, Vec<K>>
    requires { AllTellEmpty (map K.seen keepers.items) }
    ensures ok { (stripes : ℕ)
        → map reads_in reads.items ≡ copies (length keepers.items) (copies stripes None)
        → IfOk result (λ benches. map bench_data benches.items
        ≡ map (bench_over (copies stripes None)) (map K.seen keepers.items)) }
    ensures err { IfErr result (λ back. back.items ≡ keepers.items) }
{
    let Ok(mut benches) = Vec::with_capacity(alloc, keepers.len()) else {
        return Err(keepers);
    };
    for (keeper, unread) in keepers.into_iter().zip(reads) {
        benches.push_reserved(Bench {
            desk: Desk::new(keeper),
            batch: None,
            reads: unread,
        });
    }
    Ok(benches)
}

impl<K: Keeper> Core<K> {
    /// A core of new vBuckets, each opened over its keeper, which tells that it holds nothing yet, and callers with nothing to call.
    /// Where the layout is out of its limits, or memory is wanting, the keepers come back.
    pub fn new(
        alloc: Global,
        config: &Config,
        keepers: Vec<K>,
        callers: u16,
    ) -> Result<Core<K>, (OpenFault, Vec<K>)>
        requires eviction { config.now.eviction ≡ ValueEviction }
        requires count { length keepers.items ≡ config.now.vbuckets }
        requires fresh { AllTellEmpty (map K.seen keepers.items) }
        ensures interleaves { IfOk result (λ core. Interleaves core) }
        ensures layout { IfOk result (λ core. core.config ≡ config.now) }
        ensures opened { IfOk result (λ core. FirstOpened config.now config.now.vbuckets
            core.world) }
        ensures callers { IfOk result (λ core. core.callers ≡ copies callers idle) }
        ensures benches { IfOk result (λ core. core.benches
            ≡ map (bench_over (copies config.now.stripes None)) (map K.seen keepers.items)) }
        ensures err { IfErr result (λ refused. IsRefusal config.now refused.0
            × (refused.1.items ≡ keepers.items)) }
    {
        if let Some(field) = config.fault() {
            return Err((OpenFault::BadConfig(field), keepers));
        }
        let Ok(world) = open_world(alloc, config) else {
            return Err((OpenFault::NoMemory, keepers));
        };
        let Ok(callers) = idle_callers(alloc, callers) else {
            return Err((OpenFault::NoMemory, keepers));
        };
        let Ok(reads) = all_reads(alloc, config) else {
            return Err((OpenFault::NoMemory, keepers));
        };
        let Ok(value) = Out::new(alloc, MAX_VALUE) else {
            return Err((OpenFault::NoMemory, keepers));
        };
        match benches_of(alloc, keepers, reads) {
            Ok(benches) => Ok(Core {
                config: *config,
                world,
                benches,
                callers,
                value,
            }),
            Err(keepers) => Err((OpenFault::NoMemory, keepers)),
        }
    }

    /// Puts a copy of a call last in a caller's list. At an error, for want of memory, nothing changed.
    pub fn load(&mut self, alloc: Global, caller: u16, vb: u16, call: &Call) -> Result<(), NoMemory>
        requires caller { caller < length self.old.callers }
        requires vb { vb < self.old.config.vbuckets }
        requires served { CanBeLoaded (call_data call.now) }
        requires within { IsWithin (call_data call.now) }
        ensures interleaves { Interleaves self.new }
        ensures same { (length self.new.callers ≡ length self.old.callers)
            × (self.new.config ≡ self.old.config) }
        ensures ok { OnOk result (IsLoaded caller (vb, call_data call.now) self.old self.new) }
        ensures err { OnErr result (self.new ≡ self.old) }
    {
        match copy_call(alloc, call) {
            Ok(call) => push_call(&mut self.callers, caller, Loaded { vb, call }),
            Err(NoMemory) => Err(NoMemory),
        }
    }
}
