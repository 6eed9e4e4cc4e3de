// A vBucket's keeper, and what is known of it.
ghost use Rattle.std.specs.Prelude.{◌≡◌, ◌⊎◌, ◌≤◌, ◌+◌, ◌-◌, ◌^◌, ◌++◌, ℕ, true, false, Some, length, IsTrue, ◌↔◌};
ghost use Rattle.std.specs.FinMap as map;
ghost use Rattle.std.specs.Option.{option_map};
ghost use Rattle.ep_model.specs.Limits.{IsKey};
ghost use Rattle.ep_model.specs.Plain.{value_of};
ghost use Rattle.ep_model.specs.Limits.{max_value};
ghost use Rattle.ep_model.specs.World.{meta_of};
ghost use Rattle.kv_keeper.specs.Content.{Content};
ghost use Rattle.kv_keeper.specs.Kept.{AppendsFound, Commits, IfGood, LeavesKeeper, OnNoMemory, state_of};
ghost use Rattle.kv_keeper.specs.Desk.{IsSure, ReadLeaves, RoseBy, after_commit, new_desk};

use crate::{Batch, Keeper, Kept, StoreState};
use ep_model::{Meta, Out};
use std::alloc::Global;
use std::marker::Model;

/// A vBucket's keeper, and what is known of it: the number up to which it holds the history, or that this is in
/// doubt since a commit failed, and how many reads failed.
#[derive(Drop)]
pub struct Desk<K: Keeper> {
    keeper: K,
    stored: u64,
    noted: u64,
    /// The number of a commit that failed: the keeper holds the history up to it, or up to `stored`.
    doubt: Option<u64>,
    read_faults: u64,
}

impl<K: Keeper> Model for Desk<K> {
    ghost use Rattle.std.specs.Prelude.{◌≡◌, None, true};
    ghost use Rattle.std.specs.Coded.{codes};
    ghost use Rattle.kv_keeper.specs.Content.{coded_keeper};
    ghost use Rattle.kv_keeper.specs.declared.data.DeskData.{DeskData};

    ghost Value = { DeskData };

    ghost coded = { Prim.hlevel (codes, coded_keeper) };

    ghost view = { λ d. record {
      keeper = K.seen d.keeper;
      stored = d.stored;
      noted = d.noted;
      doubt = d.doubt;
      read_faults = d.read_faults;
    } };

    ghost invariant = { λ d. d.doubt ≡ None → (K.seen d.keeper).sure ≡ true };
}

impl<K: Keeper> Desk<K> {
    /// A desk before a keeper that holds nothing of the history yet, and of which no commit failed. It takes no memory.
    pub fn new(keeper: K) -> Desk<K>
        requires sure { (K.seen keeper).sure ≡ true }
        ensures { result ≡ new_desk (K.seen keeper) }
    {
        Desk {
            keeper,
            stored: 0,
            noted: 0,
            doubt: None,
            read_faults: 0,
        }
    }

    /// Whether `stored` is known to be what the keeper holds. It isn't after a commit that failed, and then the
    /// keeper is no longer called.
    pub fn is_sure(&self) -> bool
        ensures { IsTrue result ↔ IsSure self.now }
    {
        self.doubt.is_none()
    }

    /// The number up to which the keeper is known to hold the history.
    pub fn stored(&self) -> u64
        ensures { result ≡ self.now.stored }
    {
        self.stored
    }

    /// The last noted number.
    pub fn noted(&self) -> u64
        ensures { result ≡ self.now.noted }
    {
        self.noted
    }

    /// Notes the number up to which the keeper is known to hold the history.
    pub fn set_noted(&mut self)
        ensures { self.new ≡ record self.old { noted = self.old.stored } }
    {
        self.noted = self.stored;
    }

    /// How many reads failed. By at least so many has the keeper's count of faults risen since the desk was made,
    /// or it stands at 2^64 - 1.
    pub fn read_faults(&self) -> u64
        ensures { result ≡ self.now.read_faults }
    {
        self.read_faults
    }

    /// The keeper's numbers, by one call of it.
    pub fn state(&mut self, alloc: Global) -> Kept<StoreState>
        requires sure { IsSure self.old }
        ensures good { IfGood result (λ state.
            (c : Content) → self.old.keeper.content ≡ Some c → state ≡ state_of c) }
        ensures left { LeavesKeeper self.old.keeper self.new.keeper result }
        ensures memory { OnNoMemory result (self.old.keeper.ample ≡ false) }
        ensures after { self.new ≡ record self.old { keeper = self.new.keeper } }
    {
        self.keeper.state(alloc)
    }

    /// Reads a key's document by one call of the keeper: its metadata, with its value appended to `value`. Once
    /// 2^64 - 1 reads have failed it no longer calls the keeper, and answers that memory is wanting.
    pub fn get(&mut self, alloc: Global, key: &[u8], value: &mut Out) -> Kept<Option<Meta>>
        requires sure { IsSure self.old }
        requires key { IsKey key.now }
        requires spare { max_value ≤ value.old.spare }

        ensures meta { IfGood result (λ meta. (c : Content) → self.old.keeper.content ≡ Some c →
            meta ≡ option_map meta_of (map.get c.docs key.now)) }
        ensures value { IfGood result (λ _. (c : Content) → self.old.keeper.content ≡ Some c →
            value.new.bytes ≡ value.old.bytes ++ value_of (map.get c.docs key.now)) }
        ensures appends { AppendsFound value.old value.new result }
        ensures room { value.new.spare + length value.new.bytes
            ≡ value.old.spare + length value.old.bytes }

        ensures left { ReadLeaves self.old self.new result }
        ensures memory { OnNoMemory result
            ((self.old.keeper.ample ≡ false) ⊎ (self.old.read_faults ≡ 2 ^ 64 - 1)) }
        ensures exhausted { self.old.read_faults ≡ 2 ^ 64 - 1 →
            (result ≡ Kept.NoMemory) × (self.new ≡ self.old) }

        // Where the keeper's count has risen by the failed reads before, it has by those after.
        ensures by_reads { (before : ℕ) →
            RoseBy self.old.read_faults before self.old.keeper.faults →
            RoseBy self.new.read_faults before self.new.keeper.faults }
    {
        if self.read_faults == u64::MAX {
            return Kept::NoMemory;
        }
        let got = self.keeper.get(alloc, key, value);
        if let Kept::Failed = got {
            self.read_faults += 1;
        }
        got
    }

    /// Commits a batch by one call of the keeper. Where that is good, the keeper holds the history up to the
    /// batch's number; where it failed, the desk is no longer sure.
    pub fn commit(&mut self, alloc: Global, batch: &Batch, state: &StoreState) -> Kept<()>
        requires sure { IsSure self.old }
        ensures commits { Commits self.old.keeper batch.now state.now self.new.keeper result }
        ensures memory { OnNoMemory result (self.old.keeper.roomy ≡ false) }
        ensures after { self.new ≡ after_commit self.new.keeper self.old batch.now.to result }
    {
        let went = self.keeper.commit(alloc, batch, state);
        match went {
            Kept::Good(()) => self.stored = batch.to(),
            Kept::Failed => self.doubt = Some(batch.to()),
            Kept::NoMemory => {}
        }
        went
    }

    /// The keeper, apart from what the desk knows of it.
    pub fn into_keeper(self) -> K
        ensures { K.seen result ≡ self.keeper }
    {
        let Desk { keeper, .. } = self;
        keeper
    }
}
