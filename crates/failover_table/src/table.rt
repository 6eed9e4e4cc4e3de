// The table of which branch of a vBucket's history began where.
ghost use Rattle.std.specs.Prelude.{◌≡◌, ◌≤◌, [], length, slice_get};
ghost use Rattle.failover_table.specs.Table.{with_entry};

use std::marker::Model;

/// How many entries a table has at most, as in kv_engine.
pub const MAX_ENTRIES: usize = 25;

/// A failover table: the uuid of each branch of a vBucket's history with the sequence number at which the branch
/// began, newest first. It has at most 25 entries and takes no memory.
#[derive(Debug, Drop)]
pub struct Failovers {
    entries: [(u64, u64); MAX_ENTRIES],
    count: usize,
}

impl Model for Failovers {
    ghost use Rattle.std.specs.Prelude.{List, ℕ, ◌≡◌, ◌≤◌, length, take};

    ghost Value = { List (ℕ × ℕ) };

    ghost view = { λ t. take t.count t.entries };

    ghost invariant = { λ t. (t.count ≤ 25) × (length t.entries ≡ 25) };
}

impl Default for Failovers {
    ghost is_default = { λ t. t ≡ [] };

    fn default() -> Self {
        Failovers::new()
    }
}

impl Failovers {
    /// A table without entries.
    pub fn new() -> Failovers
        ensures { result ≡ [] }
    {
        Failovers {
            entries: [(0, 0); MAX_ENTRIES],
            count: 0,
        }
    }

    /// Puts the entry first. Of more than 25 the oldest is dropped. Its cost is constant.
    pub fn add(&mut self, uuid: u64, seqno: u64)
        ensures { self.new ≡ with_entry self.old uuid seqno }
    {
        self.entries.copy_within(0..MAX_ENTRIES - 1, 1);
        self.entries[0] = (uuid, seqno);
        self.count = MAX_ENTRIES.min(self.count + 1);
    }

    /// The uuid and the sequence number of the entry at this index, counted from the newest.
    pub fn entry(&self, index: u32) -> Option<(u64, u64)>
        ensures { result ≡ slice_get self.now index }
    {
        self.entries[..self.count].get(index as usize).copied()
    }

    /// How many entries there are.
    pub fn count(&self) -> u32
        ensures count { result ≡ length self.now }
        ensures bound { length self.now ≤ 25 }
    {
        self.count as u32
    }

    /// A table with the same entries.
    pub fn copy(&self) -> Failovers
        ensures { result ≡ self.now }
    {
        Failovers {
            entries: self.entries,
            count: self.count,
        }
    }
}
