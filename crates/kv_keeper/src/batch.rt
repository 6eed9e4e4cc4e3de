// A batch of documents that are stored together.
ghost use Rattle.std.specs.Prelude.{◌≡◌, ◌+◌, ◌<◌, if◌then◌else◌, length, IfOk, OnOk, OnErr};
ghost use Rattle.std.specs.FinMap as map;
ghost use Rattle.ep_model.specs.Limits.{IsKey, IsValue};
ghost use Rattle.ep_model.specs.World.{Docs};
ghost use Rattle.ep_model.specs.World.{doc_from, meta_of};
ghost use Rattle.kv_keeper.specs.Batch.{AreDistinct, AreWithin, empty_batch, has_row, with_row, row_at, laid};
ghost use Rattle.kv_keeper.specs.Rows.{entries_of};

use crate::row::Row;
use crate::rows;
use ep_model::{Meta, NoMemory};
use std::alloc::Global;
use std::marker::Model;

/// Documents that are stored together, at most one a key, with the number up to which a store then holds its
/// history and the greatest CAS of that.
#[derive(Drop)]
pub struct Batch {
    alloc: Global,
    rows: Vec<Row>,
    to: u64,
    maxcas: u64,
}

impl Model for Batch {
    ghost use Rattle.kv_keeper.specs.declared.data.BatchData.{BatchData};
    ghost use Rattle.kv_keeper.specs.Batch.{AreDistinct};
    ghost use Rattle.kv_keeper.specs.Rows.{entries_of};

    ghost Value = { BatchData };

    ghost view = { λ b. record { rows = entries_of b.rows.items; to = b.to; maxcas = b.maxcas } };

    ghost invariant = { λ b. AreDistinct (entries_of b.rows.items) };
}

impl Batch {
    /// A batch without rows, up to the sequence number `to`. It takes no memory.
    pub fn new(alloc: Global, to: u64, maxcas: u64) -> Batch
        ensures { result ≡ empty_batch to maxcas }
    {
        Batch {
            alloc,
            rows: Vec::new(alloc),
            to,
            maxcas,
        }
    }

    /// Adds a row, which takes the place of an earlier one of the key. Its cost is linear in the number of rows
    /// and in the lengths of the key and the value, which are copied.
    pub fn add(&mut self, key: &[u8], meta: Meta, value: &[u8]) -> Result<(), NoMemory>
        requires key { IsKey key.now }
        requires value { IsValue value.now }
        requires len { meta.len ≡ length value.now }

        ensures ok { OnOk result (self.new
            ≡ record self.old { rows = with_row self.old.rows key.now (doc_from meta value.now) }) }
        ensures err { OnErr result (self.new ≡ self.old) }

        // What that makes of documents, and the number of rows.
        ensures laid { OnOk result ((docs : Docs) → laid self.new.rows docs
            ≡ map.insert (laid self.old.rows docs) key.now (doc_from meta value.now)) }
        ensures count { OnOk result (length self.new.rows
            ≡ (if has_row self.old.rows key.now then length self.old.rows
            else length self.old.rows + 1)) }

        ensures distinct { AreDistinct self.new.rows }
        ensures within { AreWithin self.new.rows }
    {
        let row = rows::copied(self.alloc, key, meta, value)?;
        self.rows.reserve(1)?;
        rows::lay(&mut self.rows, row);
        Ok(())
    }

    /// How many rows it has.
    pub fn count(&self) -> usize
        ensures count { result ≡ length self.now.rows }
        ensures distinct { AreDistinct self.now.rows }
        ensures within { AreWithin self.now.rows }
    {
        self.rows.len()
    }

    /// The key of a row.
    pub fn key(&self, index: usize) -> &[u8]
        requires { index < length self.now.rows }
        ensures key { result.now ≡ (row_at self.now.rows index).0 }
        ensures within { IsKey result.now }
    {
        &self.rows[index].key
    }

    /// The metadata of a row.
    pub fn meta(&self, index: usize) -> Meta
        requires { index < length self.now.rows }
        ensures { result ≡ meta_of (row_at self.now.rows index).1 }
    {
        self.rows[index].meta
    }

    /// The value of a row.
    pub fn value(&self, index: usize) -> &[u8]
        requires { index < length self.now.rows }
        ensures value { result.now ≡ (row_at self.now.rows index).1.value }
        ensures within { IsValue result.now }
    {
        &self.rows[index].value
    }

    /// The sequence number up to which a store holds its history once it has the batch.
    pub fn to(&self) -> u64
        ensures { result ≡ self.now.to }
    {
        self.to
    }

    /// The greatest CAS of that history.
    pub fn maxcas(&self) -> u64
        ensures { result ≡ self.now.maxcas }
    {
        self.maxcas
    }

    /// Copies of its rows.
    pub(crate) fn copies(&self, alloc: Global) -> Result<Vec<Row>, NoMemory>
        ensures { IfOk result (λ copies. entries_of copies.items ≡ self.now.rows) }
    {
        rows::copies(alloc, &self.rows)
    }
}
