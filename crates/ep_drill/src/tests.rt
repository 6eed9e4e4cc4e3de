// Lists of steps on a core with one vBucket of one stripe, with their answers written out.
ghost use Rattle.std.specs.Prelude.{◌≡◌, ◌<◌, length, IfOk};
ghost use Rattle.ep_model.specs.Limits.{IsKey, IsValue};

use crate::{Answer, Core, Flushed, Marking, Merging, Paged, StepChoice, Tried, run_steps};
use ep_model::{Call, Config, Event, Eviction, NoMemory, StoreKind, Ticket};
use kv_keeper::MemoryKeeper;
use std::alloc::Global;
use std::process::Abort;
use std::test::Fail;

const CONFIG: Config = Config {
    vbuckets: 1,
    stripes: 1,
    blocks: 65_536,
    ckpt_blocks: 65_536,
    ckpt_max: 500,
    eviction: Eviction::Value,
    early: false,
};

/// A moment in nanoseconds since 1970.
const NOW: u64 = 1_000_000_000_000_000_000;

/// A value of 13 blocks of 128 bytes.
const LONG: [u8; 1664] = [b'v'; 1664];

const TAKE: StepChoice = StepChoice::TakeBatch { vb: 0 };

const COMMIT: StepChoice = StepChoice::Commit { vb: 0 };

const MARK: StepChoice = StepChoice::Mark { vb: 0, stripe: 0 };

const PAGE: StepChoice = StepChoice::Page { vb: 0, stripe: 0 };

const READ: StepChoice = StepChoice::Read { vb: 0, stripe: 0 };

const MERGE: StepChoice = StepChoice::Merge { vb: 0, stripe: 0 };

/// The first forty reads of a store.
const FORTY_READS: [u64; 40] = [
    0, 1, 2, 3, 4, 5, 6, 7, 8, 9, 10, 11, 12, 13, 14, 15, 16, 17, 18, 19, 20, 21, 22, 23, 24, 25,
    26, 27, 28, 29, 30, 31, 32, 33, 34, 35, 36, 37, 38, 39,
];

/// A caller's next call is tried.
fn front(caller: u16) -> StepChoice {
    StepChoice::Front { caller, now: NOW }
}

/// A core of two callers, whose store fails at these reads.
fn core_of(alloc: Global, fails: &[u64]) -> Result<Core<MemoryKeeper>, NoMemory>
    ensures callers { IfOk result (λ core. length core.callers ≡ 2) }
    ensures vbuckets { IfOk result (λ core. core.config.vbuckets ≡ 1) }
{
    let mut keepers = Vec::new(alloc);
    keepers.push(MemoryKeeper::new(alloc, fails.to_vec(alloc)?))?;
    match Core::new(alloc, &CONFIG, keepers, 2) {
        Ok(core) => Ok(core),
        Err(_) => Err(NoMemory),
    }
}

/// A caller is to get a key.
fn load_get(
    alloc: Global,
    core: &mut Core<MemoryKeeper>,
    caller: u16,
    key: &[u8],
) -> Result<(), NoMemory>
    requires key { IsKey key.now }
    requires caller { caller < length core.old.callers }
    requires vb { 0 < core.old.config.vbuckets }
    ensures same { (length core.new.callers ≡ length core.old.callers)
        × (core.new.config ≡ core.old.config) }
{
    core.load(alloc, caller, 0, &Call::Get { key })
}

/// A caller is to get a key so many times.
fn load_gets(
    alloc: Global,
    core: &mut Core<MemoryKeeper>,
    caller: u16,
    key: &[u8],
    count: u16,
) -> Result<(), NoMemory>
    requires key { IsKey key.now }
    requires caller { caller < length core.old.callers }
    requires vb { 0 < core.old.config.vbuckets }
    ensures same { (length core.new.callers ≡ length core.old.callers)
        × (core.new.config ≡ core.old.config) }
{
    for _get in 0..count {
        load_get(alloc, core, caller, key)?;
    }
    Ok(())
}

/// A caller is to set a key.
fn load_set(
    alloc: Global,
    core: &mut Core<MemoryKeeper>,
    caller: u16,
    key: &[u8],
    value: &[u8],
) -> Result<(), NoMemory>
    requires key { IsKey key.now }
    requires value { IsValue value.now }
    requires caller { caller < length core.old.callers }
    requires vb { 0 < core.old.config.vbuckets }
    ensures same { (length core.new.callers ≡ length core.old.callers)
        × (core.new.config ≡ core.old.config) }
{
    let call = Call::Store {
        kind: StoreKind::Set,
        key,
        value,
        flags: 0,
        expiration: 0,
        cas: 0,
    };
    core.load(alloc, caller, 0, &call)
}

/// What a step answers, but for the CAS and the sequence number of a reply.
#[derive(Clone, Copy, Debug, PartialEq, Eq)]
enum Seen {
    Status(u16),
    Other(Answer),
}

fn without_stamp(answer: Answer) -> Seen {
    match answer {
        Answer::Tried(Tried::Done(reply)) => Seen::Status(reply.status),
        other => Seen::Other(other),
    }
}

/// A list of steps has these answers.
fn expect(
    rt: &impl Abort,
    alloc: Global,
    core: &mut Core<MemoryKeeper>,
    steps: &[StepChoice],
    wanted: &[Seen],
) -> Result<(), NoMemory> {
    let answers = run_steps(alloc, core, steps)?;
    assert_eq!(rt; answers.len(), wanted.len());
    for (answer, so) in answers.iter().zip(wanted) {
        assert_eq!(rt; without_stamp(*answer), *so);
    }
    Ok(())
}

/// The last event of a core is a call that was answered, and showed this value.
fn shows_last(core: Core<MemoryKeeper>, wanted: &[u8]) -> bool {
    let history = core.into_history();
    if history.count() == 0 {
        return false;
    }
    match history.event(history.count() - 1) {
        (0, Event::Called { value, .. }) => value == wanted,
        _ => false,
    }
}

/// The answers of a Set that is stored, whose value is ejected, and which is asked for and read.
fn stored_and_read() -> [Seen; 7] {
    let ticket = Ticket {
        stripe: 0,
        number: 1,
    };
    [
        Seen::Status(0x00),
        Seen::Other(Answer::Took(1)),
        Seen::Other(Answer::Flushed(Flushed::Stored(1))),
        Seen::Other(Answer::Marked(Marking::Raised(1))),
        Seen::Other(Answer::Paged(Paged {
            used: 1,
            ejected: 1,
        })),
        Seen::Other(Answer::Tried(Tried::Fetch(ticket))),
        Seen::Other(Answer::Read(true)),
    ]
}

#[test]
fn an_ejected_value_comes_back(rt: HostRuntime) -> Result<(), Fail> {
    let alloc = rt.alloc();
    let mut core = core_of(alloc, &[])?;
    load_set(alloc, &mut core, 0, b"k", &LONG)?;
    load_get(alloc, &mut core, 0, b"k")?;
    let steps = [front(0), TAKE, COMMIT, MARK, PAGE, front(0), READ];
    expect(&rt, alloc, &mut core, &steps, &stored_and_read())?;
    let ends = [
        Seen::Other(Answer::Merged(Merging::Merged)),
        Seen::Status(0x00),
    ];
    expect(&rt, alloc, &mut core, &[MERGE, front(0)], &ends)?;
    assert!(rt; shows_last(core, &LONG));
    Ok(())
}

#[test]
fn a_read_is_stale_behind_a_set(rt: HostRuntime) -> Result<(), Fail> {
    let alloc = rt.alloc();
    let mut core = core_of(alloc, &[])?;
    load_set(alloc, &mut core, 0, b"k", &LONG)?;
    load_get(alloc, &mut core, 0, b"k")?;
    load_set(alloc, &mut core, 1, b"k", b"new")?;
    let steps = [front(0), TAKE, COMMIT, MARK, PAGE, front(0), READ];
    expect(&rt, alloc, &mut core, &steps, &stored_and_read())?;
    let ends = [
        Seen::Status(0x00),
        Seen::Other(Answer::Merged(Merging::Stale)),
        Seen::Status(0x00),
    ];
    expect(&rt, alloc, &mut core, &[front(1), MERGE, front(0)], &ends)?;
    assert!(rt; shows_last(core, b"new"));
    Ok(())
}

#[test]
fn a_failed_read_is_a_temporary_failure(rt: HostRuntime) -> Result<(), Fail> {
    let alloc = rt.alloc();
    let mut core = core_of(alloc, &[0])?;
    load_set(alloc, &mut core, 0, b"k", &LONG)?;
    load_get(alloc, &mut core, 0, b"k")?;
    load_get(alloc, &mut core, 0, b"k")?;
    let steps = [front(0), TAKE, COMMIT, MARK, PAGE, front(0), READ];
    expect(&rt, alloc, &mut core, &steps, &stored_and_read())?;
    let ends = [
        Seen::Other(Answer::Merged(Merging::Failed)),
        Seen::Status(0x86),
    ];
    expect(&rt, alloc, &mut core, &[MERGE, front(0)], &ends)?;
    let ticket = Ticket {
        stripe: 0,
        number: 2,
    };
    let again = [
        Seen::Other(Answer::Tried(Tried::Fetch(ticket))),
        Seen::Other(Answer::Read(true)),
        Seen::Other(Answer::Merged(Merging::Merged)),
        Seen::Status(0x00),
    ];
    expect(
        &rt,
        alloc,
        &mut core,
        &[front(0), READ, MERGE, front(0)],
        &again,
    )?;
    assert!(rt; shows_last(core, &LONG));
    Ok(())
}

/// The answers of a Get whose read fails: it is asked for at the ticket of this number, read, merged and refused.
fn failed_read(number: u64) -> [Seen; 4] {
    let ticket = Ticket { stripe: 0, number };
    [
        Seen::Other(Answer::Tried(Tried::Fetch(ticket))),
        Seen::Other(Answer::Read(true)),
        Seen::Other(Answer::Merged(Merging::Failed)),
        Seen::Status(0x86),
    ]
}

/// The answers of Sets of three keys that are stored, and whose values are ejected.
fn three_stored() -> [Seen; 7] {
    [
        Seen::Status(0x00),
        Seen::Status(0x00),
        Seen::Status(0x00),
        Seen::Other(Answer::Took(3)),
        Seen::Other(Answer::Flushed(Flushed::Stored(3))),
        Seen::Other(Answer::Marked(Marking::Raised(3))),
        Seen::Other(Answer::Paged(Paged {
            used: 3,
            ejected: 3,
        })),
    ]
}

/// The answers behind forty failed reads, of which no step tells anything: another key is set, stored, ejected, and
/// read.
fn goes_on() -> [Seen; 9] {
    let ticket = Ticket {
        stripe: 0,
        number: 41,
    };
    [
        Seen::Status(0x00),
        Seen::Other(Answer::Took(1)),
        Seen::Other(Answer::Flushed(Flushed::Stored(4))),
        Seen::Other(Answer::Marked(Marking::Raised(4))),
        Seen::Other(Answer::Paged(Paged {
            used: 4,
            ejected: 1,
        })),
        Seen::Other(Answer::Tried(Tried::Fetch(ticket))),
        Seen::Other(Answer::Read(true)),
        Seen::Other(Answer::Merged(Merging::Merged)),
        Seen::Status(0x00),
    ]
}

#[test]
fn a_core_goes_on_behind_forty_failed_reads(rt: HostRuntime) -> Result<(), Fail> {
    let alloc = rt.alloc();
    let mut core = core_of(alloc, &FORTY_READS)?;
    load_set(alloc, &mut core, 0, b"a", &LONG)?;
    load_set(alloc, &mut core, 0, b"b", &LONG)?;
    load_set(alloc, &mut core, 0, b"c", &LONG)?;
    load_gets(alloc, &mut core, 0, b"a", 20)?;
    load_gets(alloc, &mut core, 0, b"b", 10)?;
    load_gets(alloc, &mut core, 0, b"c", 10)?;
    load_set(alloc, &mut core, 1, b"m", &LONG)?;
    load_get(alloc, &mut core, 1, b"m")?;
    let steps = [front(0), front(0), front(0), TAKE, COMMIT, MARK, PAGE];
    expect(&rt, alloc, &mut core, &steps, &three_stored())?;
    for number in 1..41u64 {
        let steps = [front(0), READ, MERGE, front(0)];
        expect(&rt, alloc, &mut core, &steps, &failed_read(number))?;
    }
    let more = [
        front(1),
        TAKE,
        COMMIT,
        MARK,
        PAGE,
        front(1),
        READ,
        MERGE,
        front(1),
    ];
    expect(&rt, alloc, &mut core, &more, &goes_on())?;
    assert!(rt; shows_last(core, &LONG));
    Ok(())
}

#[test]
fn a_batch_takes_the_place_of_one_that_is_not_committed(rt: HostRuntime) -> Result<(), Fail> {
    let alloc = rt.alloc();
    let mut core = core_of(alloc, &[])?;
    load_set(alloc, &mut core, 0, b"a", b"1")?;
    load_set(alloc, &mut core, 0, b"b", b"2")?;
    let steps = [
        front(0),
        TAKE,
        front(0),
        TAKE,
        COMMIT,
        COMMIT,
        TAKE,
        COMMIT,
        MARK,
        MARK,
    ];
    let wanted = [
        Seen::Status(0x00),
        Seen::Other(Answer::Took(1)),
        Seen::Status(0x00),
        Seen::Other(Answer::Took(2)),
        Seen::Other(Answer::Flushed(Flushed::Stored(2))),
        Seen::Other(Answer::Nothing),
        Seen::Other(Answer::Took(0)),
        Seen::Other(Answer::Nothing),
        Seen::Other(Answer::Marked(Marking::Raised(2))),
        Seen::Other(Answer::Marked(Marking::Idle)),
    ];
    expect(&rt, alloc, &mut core, &steps, &wanted)?;
    Ok(())
}

#[test]
fn steps_out_of_range_do_nothing(rt: HostRuntime) -> Result<(), Fail> {
    let alloc = rt.alloc();
    let mut core = core_of(alloc, &[])?;
    load_set(alloc, &mut core, 0, b"k", b"v")?;
    let late = StepChoice::Front {
        caller: 0,
        now: 1 << 62,
    };
    let steps = [
        StepChoice::Warm { vb: 0 },
        StepChoice::TakeBatch { vb: 1 },
        StepChoice::Commit { vb: 1 },
        COMMIT,
        StepChoice::Mark { vb: 0, stripe: 1 },
        StepChoice::Read { vb: 0, stripe: 1 },
        StepChoice::Merge { vb: 0, stripe: 1 },
        MERGE,
        StepChoice::Page { vb: 1, stripe: 0 },
        front(1),
        front(2),
        late,
    ];
    expect(
        &rt,
        alloc,
        &mut core,
        &steps,
        &[Seen::Other(Answer::Nothing); 12],
    )?;
    let rest = [
        Seen::Other(Answer::Took(0)),
        Seen::Other(Answer::Marked(Marking::Idle)),
        Seen::Other(Answer::Read(false)),
        Seen::Status(0x00),
    ];
    expect(&rt, alloc, &mut core, &[TAKE, MARK, READ, front(0)], &rest)?;
    assert_eq!(rt; core.into_history().count(), 2);
    Ok(())
}
