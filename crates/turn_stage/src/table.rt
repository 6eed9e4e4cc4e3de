// The turns of a vBucket's parts, and the parts.
ghost use Rattle.std.specs.Prelude.{◌≡◌, ◌+◌, ◌≤◌, []};
ghost use Rattle.std.specs.Vec.{vec_len, vec_capacity};

use crate::data::View;
use crate::rule::{Rule, TableKey};
use atomic_table::Table;
use ep_model::Config;
use hold_stage::Stands;
use std::alloc::Global;

/// The turns of a vBucket's parts, and the parts. Threads share it, each with a pass of its own. No call on it or on a
/// stage of it waits or takes memory, but for `new`. Dropped without `close`, it drops the parts that lie in their slots.
#[derive(Drop)]
pub struct Turns<P: Stands + Drop> {
    pub(crate) table: Table<Option<P>, View, TableKey, Rule, Global>,
    pub(crate) config: Config,
    // Where the parts go once it is closed.
    pub(crate) room: Vec<P>,
    pub ghost words: { table.shared.table_id.words ≡ config.stripes + 3 },
    pub ghost slots: { table.shared.table_id.slots ≡ config.stripes + 2 },
    pub ghost empty: { vec_len room ≡ 0 },
    pub ghost wide: { config.stripes + 2 ≤ vec_capacity room },
}
