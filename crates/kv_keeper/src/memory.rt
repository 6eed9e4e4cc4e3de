// A store in memory.
ghost use Rattle.std.specs.Prelude.{◌≡◌, ◌≤◌, ◌+◌, ◌++◌, ◌==◌, true, false, Some, length};
ghost use Rattle.std.specs.FinMap as map;
ghost use Rattle.std.specs.List.{list_any};
ghost use Rattle.std.specs.Option.{option_map};
ghost use Rattle.ep_model.specs.Limits.{IsKey};
ghost use Rattle.ep_model.specs.Plain.{value_of};
ghost use Rattle.ep_model.specs.Limits.{max_value};
ghost use Rattle.ep_model.specs.World.{meta_of};
ghost use Rattle.kv_keeper.specs.Content.{Content};
ghost use Rattle.kv_keeper.specs.Kept.{AppendsFound, Commits, IfGood, LeavesKeeper, OnNoMemory, state_of};
ghost use Rattle.kv_keeper.specs.Memory.{empty_memory, get_answer, get_bytes, after_get, memory_after_commit, keeper_of};

use crate::row::Row;
use crate::{Batch, Keeper, Kept, StoreState, rows};
use ep_model::{Meta, Out};
use std::alloc::Global;
use std::marker::Model;

/// A store in memory, which fails where it was told to. Its documents stand in a plain list, so a read costs time
/// linear in their number, and a commit the product of that and the number of the batch's rows.
#[derive(Drop)]
pub struct MemoryKeeper {
    rows: Vec<Row>,
    state: StoreState,
    /// The number of the next read.
    gets: u64,
    fails: Vec<u64>,
    faults: u64,
}

impl Model for MemoryKeeper {
    ghost use Rattle.kv_keeper.specs.Memory.{MemoryData, coded_memory};
    ghost use Rattle.kv_keeper.specs.Rows.{memory_of};

    ghost Value = { MemoryData };

    ghost coded = { coded_memory };

    ghost view = { λ m. memory_of m.rows.items m.state m.gets m.fails.items m.faults };
}

impl MemoryKeeper {
    /// An empty store of version 1. Its reads with a number in `fails` fail, counted from 0; no other call fails,
    /// ever. From read 2^64 - 1 on the count stands, so all of them fail where that number is in `fails`. It takes
    /// no memory.
    pub fn new(alloc: Global, fails: Vec<u64>) -> MemoryKeeper
        ensures { result ≡ empty_memory fails.items }
    {
        MemoryKeeper {
            rows: Vec::new(alloc),
            state: StoreState {
                version: 1,
                high: 0,
                maxcas: 0,
            },
            gets: 0,
            fails,
            faults: 0,
        }
    }
}

impl Keeper for MemoryKeeper {
    ghost use Rattle.kv_keeper.specs.Memory.{keeper_of};

    ghost seen = { keeper_of };

    /// Its cost is constant.
    fn state(&mut self, _alloc: Global) -> Kept<StoreState>
        ensures good { IfGood result (λ state.
            (c : Content) → (keeper_of self.old).content ≡ Some c → state ≡ state_of c) }
        ensures left { LeavesKeeper (keeper_of self.old) (keeper_of self.new) result }
        ensures memory { OnNoMemory result ((keeper_of self.old).ample ≡ false) }
        ensures answer { result ≡ Kept.Good (state_of self.old.content) }
        ensures after { self.new ≡ self.old }
    {
        Kept::Good(self.state)
    }

    /// Its cost is linear in the number of documents, in the lengths of the keys and the value, and in the number
    /// of reads that fail. Memory is never wanting.
    fn get(&mut self, _alloc: Global, key: &[u8], value: &mut Out) -> Kept<Option<Meta>>
        requires key { IsKey key.now }
        requires spare { max_value ≤ value.old.spare }
        ensures meta { IfGood result (λ meta. (c : Content) →
            (keeper_of self.old).content ≡ Some c →
            meta ≡ option_map meta_of (map.get c.docs key.now)) }
        ensures value { IfGood result (λ _. (c : Content) → (keeper_of self.old).content ≡ Some c →
            value.new.bytes ≡ value.old.bytes ++ value_of (map.get c.docs key.now)) }
        ensures appends { AppendsFound value.old value.new result }
        ensures room { value.new.spare + length value.new.bytes
            ≡ value.old.spare + length value.old.bytes }
        ensures left { LeavesKeeper (keeper_of self.old) (keeper_of self.new) result }
        ensures memory { OnNoMemory result ((keeper_of self.old).ample ≡ false) }
        ensures answer { result ≡ get_answer self.old key.now }
        ensures bytes { value.new.bytes ≡ get_bytes self.old key.now value.old.bytes }
        ensures after { self.new ≡ after_get self.old }
    {
        if self.next_get_fails() {
            return Kept::Failed;
        }
        match rows::find(&self.rows, key) {
            Some(row) => {
                value.push(&row.value);
                Kept::Good(Some(row.meta))
            }
            None => Kept::Good(None),
        }
    }

    /// Its cost is linear in the product of the numbers of documents and of the batch's rows. Where memory is
    /// wanting, nothing has changed.
    fn commit(&mut self, alloc: Global, batch: &Batch, state: &StoreState) -> Kept<()>
        ensures commits { Commits (keeper_of self.old) batch.now state.now (keeper_of self.new)
            result }
        ensures memory { OnNoMemory result ((keeper_of self.old).roomy ≡ false) }
        ensures never_fails { result ≡ Kept.Failed → ⊥ }
        ensures after { self.new ≡ memory_after_commit self.old batch.now state.now result }
    {
        let Ok(rows) = batch.copies(alloc) else {
            return Kept::NoMemory;
        };
        if self.rows.reserve(rows.len()).is_err() {
            return Kept::NoMemory;
        }
        rows::lay_all(&mut self.rows, rows);
        self.state = *state;
        Kept::Good(())
    }
}

impl MemoryKeeper {
    ghost use Rattle.std.specs.Prelude.{◌≡◌, ◌≤◌};
    ghost use Rattle.kv_keeper.specs.Memory.{after_get, is_failing};

    /// Counts a read, and answers whether it fails.
    fn next_get_fails(&mut self) -> bool
        ensures fails { result ≡ is_failing self.old }
        ensures after { self.new ≡ after_get self.old }
    {
        let number = self.gets;
        self.gets = number.saturating_add(1);
        let fails = is_listed(&self.fails, number);
        if fails {
            self.faults = self.faults.saturating_add(1);
        }
        fails
    }
}

/// Whether the number is one of these.
fn is_listed(numbers: &[u64], number: u64) -> bool
    ensures { result ≡ list_any (λ listed. listed == number) numbers.now }
{
    numbers.iter().any(|listed| *listed == number)
}
