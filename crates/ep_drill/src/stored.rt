// Steps at the bench of one vBucket of a world, each with room for the event that it notes.
ghost use Rattle.std.specs.Prelude.{◌≡◌, ◌+◌, ◌<◌, length, slice_get, IsSome, Some, None, IfOk, OnErr};
ghost use Rattle.ep_model.specs.declared.event.PartName.TheVariants.{Stripe};
ghost use Rattle.ep_model.specs.Limits.{max_value};
ghost use Rattle.vb_world.specs.World.{front_in, part_in, Sound};
ghost use Rattle.ep_drill.specs.Parts.{part_stands};
ghost use Rattle.ep_drill.specs.Fetches.{HasWaiting};
ghost use Rattle.ep_drill.specs.Core.{bench_data, BenchStands, LacksEventRoom, Ready, Moved, Rested, Worked};
ghost use Rattle.ep_drill.specs.Works.{TakesAt, CommitsAt, FetchesAt, MergesAt};

use crate::bench::Bench;
use crate::choice::Answer;
use crate::fetch::{fetch_merge, fetch_read};
use crate::part::Part;
use crate::store::{Flushed, commit_batch, take_batch};
use crate::worked::WORKER;
use ep_model::{Config, NoMemory, Out};
use kv_keeper::Keeper;
use std::alloc::Global;
use std::mem;
use vb_world::World;

/// Copies what isn't stored yet, in place of a batch that isn't committed: how many documents. Where it is in doubt
/// what the store holds, nothing is copied.
pub(crate) fn take_at<K: Keeper>(
    alloc: Global,
    config: &Config,
    world: &mut World<Part>,
    vb: u16,
    bench: &mut Bench<K>,
) -> Answer
    requires ready { Ready config.now world.old }
    requires vb { vb < config.now.vbuckets }
    requires sound { Sound part_stands world.old }
    requires bench { BenchStands (front_in world.old vb) (bench_data bench.old) }
    ensures taken { TakesAt config.now vb result world.old world.new (bench_data bench.old)
        (bench_data bench.new) }
    ensures moved { Moved config.now vb None world.old world.new }
    ensures bench { BenchStands (front_in world.new vb) (bench_data bench.new) }
    ensures sound { Sound part_stands world.new }
{
    if !bench.desk.is_sure() {
        return Answer::Flushed(Flushed::Failed);
    }
    bench.batch = None;
    let mut stage = world.stage(vb, WORKER);
    let taken = take_batch(alloc, &mut stage);
    // what is so of this world is known by this call
    let _count = world.count();
    match taken {
        Ok(Some(batch)) => {
            let count = batch.count();
            bench.batch = Some(batch);
            Answer::Took(u32::try_from(count).unwrap_or(u32::MAX))
        }
        Ok(None) => Answer::Took(0),
        Err(NoMemory) => Answer::Flushed(Flushed::NoMemory),
    }
}

/// Commits the batch, which is used up then: nothing is done where there is none. At an error the history had no room
/// for an event, nothing was done, and the batch stays.
pub(crate) fn commit_at<K: Keeper>(
    alloc: Global,
    config: &Config,
    world: &mut World<Part>,
    vb: u16,
    bench: &mut Bench<K>,
) -> Result<Answer, NoMemory>
    requires ready { Ready config.now world.old }
    requires vb { vb < config.now.vbuckets }
    requires sound { Sound part_stands world.old }
    requires bench { BenchStands (front_in world.old vb) (bench_data bench.old) }
    ensures ok { IfOk result (λ answer. CommitsAt config.now vb answer world.old world.new
        (bench_data bench.old) (bench_data bench.new)) }
    ensures err { OnErr result (Rested config.now world.old world.new
        × (bench_data bench.new ≡ bench_data bench.old) × IsSome (bench_data bench.old).batch
        × LacksEventRoom world.old) }
    ensures worked { Worked config.now vb world.old world.new }
    ensures bench { BenchStands (front_in world.new vb) (bench_data bench.new) }
    ensures sound { Sound part_stands world.new }
{
    let Some(batch) = mem::replace(&mut bench.batch, None) else {
        return Ok(Answer::Nothing);
    };
    // what is so of this batch is known by this call
    let _rows = batch.count();
    if world.reserve(1, 0).is_err() {
        bench.batch = Some(batch);
        return Err(NoMemory);
    }
    let mut stage = world.stage(vb, WORKER);
    let flushed = commit_batch(alloc, &mut bench.desk, &mut stage, &batch);
    // what is so of this world is known by this call
    let _count = world.count();
    Ok(Answer::Flushed(flushed))
}

// Reads for a stripe of a vBucket where it isn't in doubt what the store holds.
fn read_sure<K: Keeper>(
    alloc: Global,
    config: &Config,
    world: &mut World<Part>,
    vb: u16,
    bench: &mut Bench<K>,
    stripe: u16,
    value: &mut Out,
) -> Result<Answer, NoMemory>
    requires ready { Ready config.now world.old }
    requires vb { vb < config.now.vbuckets }
    requires stripe { stripe < config.now.stripes }
    requires sound { Sound part_stands world.old }
    requires sure { bench.old.desk.doubt ≡ None }
    requires bench { BenchStands (front_in world.old vb) (bench_data bench.old) }
    requires value { value.old.spare + length value.old.bytes ≡ max_value }
    ensures ok { IfOk result (λ answer. FetchesAt config.now vb stripe answer world.old world.new
        (bench_data bench.old) (bench_data bench.new)) }
    ensures err { OnErr result (Rested config.now world.old world.new
        × (bench_data bench.new ≡ bench_data bench.old) × ((bench_data bench.old).desk.doubt ≡ None)
        × HasWaiting (part_in world.old vb (Stripe stripe))) }
    ensures moved { Moved config.now vb None world.old world.new }
    ensures bench { BenchStands (front_in world.new vb) (bench_data bench.new) }
    ensures sound { Sound part_stands world.new }
    ensures value { value.new.spare + length value.new.bytes ≡ max_value }
{
    let mut stage = world.stage(vb, WORKER);
    let read = fetch_read(alloc, &mut bench.desk, &mut stage, stripe, value);
    // what is so of this world is known by this call
    let _count = world.count();
    match read {
        Ok(Some(fetched)) => {
            bench.reads[usize::from(stripe)] = Some(fetched);
            Ok(Answer::Read(true))
        }
        Ok(None) => Ok(Answer::Read(false)),
        Err(NoMemory) => Err(NoMemory),
    }
}

/// Reads the document of the oldest call that waits in a stripe: whether one waits. What was read before and isn't
/// merged is dropped then. Where it is in doubt what the store holds, nothing is done.
pub(crate) fn read_at<K: Keeper>(
    alloc: Global,
    config: &Config,
    world: &mut World<Part>,
    vb: u16,
    bench: &mut Bench<K>,
    stripe: u16,
    value: &mut Out,
) -> Result<Answer, NoMemory>
    requires ready { Ready config.now world.old }
    requires vb { vb < config.now.vbuckets }
    requires stripe { stripe < config.now.stripes }
    requires sound { Sound part_stands world.old }
    requires bench { BenchStands (front_in world.old vb) (bench_data bench.old) }
    requires value { value.old.spare + length value.old.bytes ≡ max_value }
    ensures ok { IfOk result (λ answer. FetchesAt config.now vb stripe answer world.old world.new
        (bench_data bench.old) (bench_data bench.new)) }
    ensures err { OnErr result (Rested config.now world.old world.new
        × (bench_data bench.new ≡ bench_data bench.old) × ((bench_data bench.old).desk.doubt ≡ None)
        × HasWaiting (part_in world.old vb (Stripe stripe))) }
    ensures moved { Moved config.now vb None world.old world.new }
    ensures bench { BenchStands (front_in world.new vb) (bench_data bench.new) }
    ensures sound { Sound part_stands world.new }
    ensures value { value.new.spare + length value.new.bytes ≡ max_value }
{
    if !bench.desk.is_sure() {
        return Ok(Answer::Nothing);
    }
    read_sure(alloc, config, world, vb, bench, stripe, value)
}

/// Ends a read for whoever still waits for it: nothing is done where there is none. Where memory is wanting, for an
/// event for which the history has no room, the read stays.
pub(crate) fn merge_at<K: Keeper>(
    config: &Config,
    world: &mut World<Part>,
    vb: u16,
    bench: &mut Bench<K>,
    stripe: u16,
) -> Result<Answer, NoMemory>
    requires ready { Ready config.now world.old }
    requires vb { vb < config.now.vbuckets }
    requires stripe { stripe < config.now.stripes }
    requires sound { Sound part_stands world.old }
    requires bench { BenchStands (front_in world.old vb) (bench_data bench.old) }
    ensures ok { IfOk result (λ answer. MergesAt config.now vb stripe answer world.old world.new
        (bench_data bench.old) (bench_data bench.new)) }
    ensures err { OnErr result (Rested config.now world.old world.new
        × (bench_data bench.new ≡ bench_data bench.old)
        × (slice_get (bench_data bench.old).reads stripe ≡ Some None → ⊥)
        × LacksEventRoom world.old) }
    ensures worked { Worked config.now vb world.old world.new }
    ensures bench { BenchStands (front_in world.new vb) (bench_data bench.new) }
    ensures sound { Sound part_stands world.new }
{
    let Some(fetched) = mem::replace(&mut bench.reads[usize::from(stripe)], None) else {
        return Ok(Answer::Nothing);
    };
    if world.reserve(1, 0).is_err() {
        bench.reads[usize::from(stripe)] = Some(fetched);
        return Err(NoMemory);
    }
    let mut stage = world.stage(vb, WORKER);
    let merging = fetch_merge(&mut stage, fetched);
    // what is so of this world is known by this call
    let _count = world.count();
    Ok(Answer::Merged(merging))
}
