// Batches, commits and reads with their bytes written out, and a keeper that always fails.
ghost use Rattle.std.specs.Prelude.{◌≡◌, ◌≤◌, true};
ghost use Rattle.ep_model.specs.Limits.{IsKey};
ghost use Rattle.ep_model.specs.Counts.{raised};

use crate::{Batch, Desk, Keeper, Kept, MemoryKeeper, StoreState};
use ep_model::limits::MAX_VALUE;
use ep_model::{Meta, NoMemory, Out};
use std::alloc::Global;
use std::process::Abort;
use std::test::Fail;

const FLAGS: u32 = 0xdead_beef;

/// The metadata of a value of this length under this number; without a value it is a deleted document's.
fn meta(seqno: u64, len: u32) -> Meta
    ensures { result.len ≡ len }
{
    Meta {
        flags: FLAGS,
        expiry: 9,
        cas: 7,
        seqno,
        deleted: len == 0,
        len,
    }
}

fn state(high: u64) -> StoreState {
    StoreState {
        version: 1,
        high,
        maxcas: 7,
    }
}

/// A batch up to a number, of documents with these numbers, keys and values.
fn batch_of(
    rt: &impl Abort,
    alloc: Global,
    to: u64,
    rows: &[(u64, &[u8], &[u8])],
) -> Result<Batch, NoMemory> {
    let mut batch = Batch::new(alloc, to, 7);
    for (seqno, key, value) in rows {
        assert!(rt; !key.is_empty() && key.len() <= 250 && value.len() <= 9);
        batch.add(key, meta(*seqno, value.len() as u32), value)?;
    }
    Ok(batch)
}

/// A read of the key answers this, and appends this value.
fn expect<K: Keeper>(
    rt: &impl Abort,
    alloc: Global,
    keeper: &mut K,
    key: &[u8],
    wanted: Kept<Option<Meta>>,
    value: &[u8],
) -> Result<(), NoMemory>
    requires sure { (K.seen keeper.old).sure ≡ true }
    requires key { IsKey key.now }
    ensures { (K.seen keeper.new).sure ≡ true }
{
    let mut out = Out::new(alloc, MAX_VALUE)?;
    assert_eq!(rt; keeper.get(alloc, key, &mut out), wanted);
    assert_eq!(rt; out.bytes(), value);
    Ok(())
}

/// A keeper that always fails, and doesn't tell what it holds.
#[derive(Drop)]
struct Broken {
    sure: bool,
    faults: u64,
}

impl Broken {
    fn fail<T>(&mut self) -> Kept<T>
        ensures after { self.new ≡ record self.old { faults = raised self.old.faults } }
        ensures failed { result ≡ Kept.Failed }
    {
        self.faults = self.faults.saturating_add(1);
        Kept::Failed
    }
}

impl Keeper for Broken {
    ghost use Rattle.std.specs.Prelude.{None, false};

    ghost seen = { λ b. record {
      content = None;
      second = None;
      sure = b.sure;
      faults = b.faults;
      ample = false;
      roomy = false;
    } };

    fn state(&mut self, _alloc: Global) -> Kept<StoreState> {
        self.fail()
    }

    fn get(&mut self, _alloc: Global, _key: &[u8], _value: &mut Out) -> Kept<Option<Meta>> {
        self.fail()
    }

    fn commit(&mut self, _alloc: Global, _batch: &Batch, _state: &StoreState) -> Kept<()> {
        self.sure = false;
        self.fail()
    }
}

#[test]
fn a_batch_has_one_row_a_key(rt: HostRuntime) -> Result<(), Fail> {
    let rows: [(u64, &[u8], &[u8]); 3] = [(1, b"a", b"one"), (2, b"b", b""), (3, b"a", b"three")];
    let batch = batch_of(&rt, rt.alloc(), 3, &rows)?;
    assert_eq!(rt; (batch.count(), batch.to(), batch.maxcas()), (2, 3, 7));
    let wants: [(u64, &[u8], &[u8]); 2] = [(3, b"a", b"three"), (2, b"b", b"")];
    for (index, (seqno, key, value)) in wants.iter().enumerate() {
        assert!(rt; index < batch.count());
        assert_eq!(rt; batch.key(index), *key);
        assert_eq!(rt; batch.value(index), *value);
        assert_eq!(rt; batch.meta(index).seqno, *seqno);
    }
    Ok(())
}

#[test]
fn commits_are_read_back(rt: HostRuntime) -> Result<(), Fail> {
    let alloc = rt.alloc();
    let mut keeper = MemoryKeeper::new(alloc, Vec::new(alloc));
    assert_eq!(rt;
        keeper.state(alloc),
        Kept::Good(StoreState {
            version: 1,
            high: 0,
            maxcas: 0
        })
    );

    let first = batch_of(&rt, alloc, 2, &[(1, b"a", b"one"), (2, b"b", b"")])?;
    assert_eq!(rt; keeper.commit(alloc, &first, &state(2)), Kept::Good(()));
    expect(
        &rt,
        alloc,
        &mut keeper,
        b"a",
        Kept::Good(Some(meta(1, 3))),
        b"one",
    )?;
    expect(
        &rt,
        alloc,
        &mut keeper,
        b"b",
        Kept::Good(Some(meta(2, 0))),
        b"",
    )?;
    expect(&rt, alloc, &mut keeper, b"c", Kept::Good(None), b"")?;

    let second = batch_of(&rt, alloc, 4, &[(3, b"b", b"three"), (4, b"c", b"four")])?;
    assert_eq!(rt; keeper.commit(alloc, &second, &state(4)), Kept::Good(()));
    expect(
        &rt,
        alloc,
        &mut keeper,
        b"a",
        Kept::Good(Some(meta(1, 3))),
        b"one",
    )?;
    expect(
        &rt,
        alloc,
        &mut keeper,
        b"b",
        Kept::Good(Some(meta(3, 5))),
        b"three",
    )?;
    expect(
        &rt,
        alloc,
        &mut keeper,
        b"c",
        Kept::Good(Some(meta(4, 4))),
        b"four",
    )?;
    assert_eq!(rt; keeper.state(alloc), Kept::Good(state(4)));
    Ok(())
}

#[test]
fn reads_fail_by_their_numbers(rt: HostRuntime) -> Result<(), Fail> {
    let alloc = rt.alloc();
    let mut keeper = MemoryKeeper::new(alloc, vec![in alloc; 1, 2]?);
    for wanted in [
        Kept::Good(None),
        Kept::Failed,
        Kept::Failed,
        Kept::Good(None),
    ] {
        expect(&rt, alloc, &mut keeper, b"a", wanted, b"")?;
    }
    Ok(())
}

#[test]
fn a_desk_knows_what_is_stored(rt: HostRuntime) -> Result<(), Fail> {
    let alloc = rt.alloc();
    let mut desk = Desk::new(MemoryKeeper::new(alloc, vec![in alloc; 1]?));
    let batch = batch_of(&rt, alloc, 2, &[(1, b"a", b"one")])?;
    assert_eq!(rt; desk.commit(alloc, &batch, &state(2)), Kept::Good(()));
    assert_eq!(rt; (desk.stored(), desk.noted()), (2, 0));
    desk.set_noted();
    assert_eq!(rt; (desk.stored(), desk.noted()), (2, 2));

    let mut out = Out::new(alloc, 2 * MAX_VALUE)?;
    assert!(rt; desk.is_sure());
    assert_eq!(rt;
        desk.get(alloc, b"a", &mut out),
        Kept::Good(Some(meta(1, 3)))
    );
    assert!(rt; desk.is_sure() && out.spare() >= MAX_VALUE);
    assert_eq!(rt; desk.get(alloc, b"a", &mut out), Kept::Failed);
    assert_eq!(rt; out.bytes(), b"one".as_slice());
    assert_eq!(rt; desk.read_faults(), 1);
    assert!(rt; desk.is_sure());
    assert_eq!(rt; desk.state(alloc), Kept::Good(state(2)));
    let mut keeper = desk.into_keeper();
    expect(
        &rt,
        alloc,
        &mut keeper,
        b"a",
        Kept::Good(Some(meta(1, 3))),
        b"one",
    )?;
    Ok(())
}

#[test]
fn each_of_four_reads_that_fail_is_answered_so(rt: HostRuntime) -> Result<(), Fail> {
    let alloc = rt.alloc();
    let mut desk = Desk::new(MemoryKeeper::new(alloc, vec![in alloc; 0, 1, 2, 3]?));
    let mut out = Out::new(alloc, MAX_VALUE)?;
    for faults in 1..5u64 {
        assert!(rt; desk.is_sure() && out.spare() >= MAX_VALUE);
        assert_eq!(rt; desk.get(alloc, b"a", &mut out), Kept::Failed);
        assert_eq!(rt; desk.read_faults(), faults);
    }
    assert!(rt; desk.is_sure() && out.spare() >= MAX_VALUE);
    assert_eq!(rt; desk.get(alloc, b"a", &mut out), Kept::Good(None));
    Ok(())
}

#[test]
fn a_commit_that_failed_leaves_a_desk_in_doubt(rt: HostRuntime) -> Result<(), Fail> {
    let alloc = rt.alloc();
    let mut desk = Desk::new(Broken {
        sure: true,
        faults: 0,
    });
    let batch = batch_of(&rt, alloc, 2, &[(1, b"a", b"one")])?;
    assert_eq!(rt; desk.state(alloc), Kept::Failed);
    assert!(rt; desk.is_sure());
    assert_eq!(rt; desk.commit(alloc, &batch, &state(2)), Kept::Failed);
    assert!(rt; !desk.is_sure());
    assert_eq!(rt; (desk.stored(), desk.read_faults()), (0, 0));
    Ok(())
}
