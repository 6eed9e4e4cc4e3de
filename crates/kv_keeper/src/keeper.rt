// What is asked of a store.
ghost use Rattle.std.specs.Prelude.{◌≡◌, ◌≤◌, ◌+◌, ◌++◌, true, false, Some, length};
ghost use Rattle.std.specs.FinMap as map;
ghost use Rattle.std.specs.Option.{option_map};
ghost use Rattle.ep_model.specs.Limits.{IsKey};
ghost use Rattle.ep_model.specs.Plain.{value_of};
ghost use Rattle.ep_model.specs.Limits.{max_value};
ghost use Rattle.ep_model.specs.World.{meta_of};
ghost use Rattle.kv_keeper.specs.Content.{Content, KeeperData};
ghost use Rattle.kv_keeper.specs.Kept.{AppendsFound, Commits, IfGood, LeavesKeeper, OnNoMemory, state_of};

use crate::Batch;
use ep_model::{Meta, Out};
use std::alloc::Global;

/// What a store says of itself beside its documents: the version of its layout, and the greatest sequence number
/// and CAS of the history that it holds.
#[derive(Clone, Copy, Debug, PartialEq, Eq)]
pub struct StoreState {
    pub version: u32,
    pub high: u64,
    pub maxcas: u64,
}

/// How a call on a store went.
#[derive(Debug, PartialEq, Eq, Drop)]
pub enum Kept<T> {
    Good(T),
    /// The store could not be read or written.
    Failed,
    NoMemory,
}

/// A store of documents and three numbers. Once a commit has failed it is in doubt what the store holds, and then it
/// may not be called.
pub trait Keeper: Drop {
    /// What clauses see of it: what it holds, where it tells that, and how often it has failed. Whether it tells never
    /// changes. Each call that answers `Failed` raises the count by one, and no other does; at 2^64 - 1 it stays.
    ghost seen: { Self → KeeperData };

    /// Its numbers.
    fn state(&mut self, alloc: Global) -> Kept<StoreState>
        requires sure { (seen self.old).sure ≡ true }
        ensures good { IfGood result (λ state.
            (c : Content) → (seen self.old).content ≡ Some c → state ≡ state_of c) }
        ensures left { LeavesKeeper (seen self.old) (seen self.new) result }
        ensures memory { OnNoMemory result ((seen self.old).ample ≡ false) };

    /// The metadata of a key's document, deleted or not, whose value is appended to `value`; or `None`, where it
    /// has no document of the key. Any other answer leaves `value` as it was.
    fn get(&mut self, alloc: Global, key: &[u8], value: &mut Out) -> Kept<Option<Meta>>
        requires sure { (seen self.old).sure ≡ true }
        requires key { IsKey key.now }
        requires spare { max_value ≤ value.old.spare }

        ensures meta { IfGood result (λ meta. (c : Content) → (seen self.old).content ≡ Some c →
            meta ≡ option_map meta_of (map.get c.docs key.now)) }
        ensures value { IfGood result (λ _. (c : Content) → (seen self.old).content ≡ Some c →
            value.new.bytes ≡ value.old.bytes ++ value_of (map.get c.docs key.now)) }

        // The same of any keeper, whether it tells what it holds or not.
        ensures appends { AppendsFound value.old value.new result }
        ensures room { value.new.spare + length value.new.bytes
            ≡ value.old.spare + length value.old.bytes }

        ensures left { LeavesKeeper (seen self.old) (seen self.new) result }
        ensures memory { OnNoMemory result ((seen self.old).ample ≡ false) };

    /// Lays the batch over the documents and sets the numbers. After `Failed` it may have done that, or nothing
    /// of it; after `NoMemory` it has done nothing.
    fn commit(&mut self, alloc: Global, batch: &Batch, state: &StoreState) -> Kept<()>
        requires sure { (seen self.old).sure ≡ true }
        ensures commits { Commits (seen self.old) batch.now state.now (seen self.new) result }
        ensures memory { OnNoMemory result ((seen self.old).roomy ≡ false) };
}
