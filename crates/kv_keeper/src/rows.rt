// Rows in memory: the first row of a key is the one that counts.
ghost use Rattle.std.specs.Prelude.{◌≡◌, ◌+◌, ◌<◌, ◌≤◌, length, vec_len, vec_capacity, IfOk};
ghost use Rattle.std.specs.FinMap as map;
ghost use Rattle.std.specs.Option.{option_map, option_copied, ForSome};
ghost use Rattle.ep_model.specs.Limits.{IsKey, IsValue};
ghost use Rattle.ep_model.specs.World.{doc_from};
ghost use Rattle.kv_keeper.specs.Batch.{laid, with_row};
ghost use Rattle.kv_keeper.specs.Rows.{entry_of, entries_of, docs_of, row_doc, place_of};

use crate::row::Row;
use ep_model::{Meta, NoMemory};
use std::alloc::Global;

/// A row of these bytes, copied.
pub(crate) fn copied(alloc: Global, key: &[u8], meta: Meta, value: &[u8]) -> Result<Row, NoMemory>
    requires key { IsKey key.now }
    requires value { IsValue value.now }
    requires len { meta.len ≡ length value.now }
    ensures key { IfOk result (λ row. row.key.items ≡ key.now) }
    ensures doc { IfOk result (λ row. row_doc row ≡ doc_from meta value.now) }
{
    let key = key.to_vec(alloc)?;
    let value = value.to_vec(alloc)?;
    Ok(Row { key, value, meta })
}

/// Copies of the rows.
pub(crate) fn copies(alloc: Global, rows: &[Row]) -> Result<Vec<Row>, NoMemory>
    ensures { IfOk result (λ copies. entries_of copies.items ≡ entries_of rows.now) }
{
    let mut copies = Vec::with_capacity(alloc, rows.len())?;
    for row in rows {
        copies.push(copied(alloc, &row.key, row.meta, &row.value)?)?;
    }
    Ok(copies)
}

/// The place of the first row of a key.
fn position_of(rows: &[Row], key: &[u8]) -> Option<usize>
    ensures place { result ≡ place_of rows.now key.now }
    ensures within { ForSome result (λ place. place < length rows.now) }
{
    rows.iter().position(|row| row.key.as_slice() == key)
}

/// The first row of a key.
pub(crate) fn find<'a>(rows: &'a [Row], key: &[u8]) -> Option<&'a Row>
    ensures { option_map row_doc (option_copied result)
        ≡ map.get (docs_of (entries_of rows.now)) key.now }
{
    let place = position_of(rows, key)?;
    Some(&rows[place])
}

/// Puts a row in place of the first one of its key, or at the end where there is none.
pub(crate) fn lay(rows: &mut Vec<Row>, row: Row)
    requires { vec_len rows.old < vec_capacity rows.old }
    ensures rows { entries_of rows.new.items
        ≡ with_row (entries_of rows.old.items) row.key.items (row_doc row) }
    ensures len { vec_len rows.new ≤ vec_len rows.old + 1 }
    ensures capacity { vec_capacity rows.old ≤ vec_capacity rows.new }
{
    match position_of(rows, &row.key) {
        Some(place) => rows[place] = row,
        None => rows.push_reserved(row),
    }
}

/// Lays all the rows, from the last to the first, so that of two under one key the first stays.
pub(crate) fn lay_all(rows: &mut Vec<Row>, mut more: Vec<Row>)
    requires { vec_len rows.old + vec_len more ≤ vec_capacity rows.old }
    ensures { docs_of (entries_of rows.new.items)
        ≡ laid (entries_of more.items) (docs_of (entries_of rows.old.items)) }
{
    while let Some(row) = more.pop() {
        lay(rows, row);
    }
}
