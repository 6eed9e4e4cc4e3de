// Calls that store a client's bytes, and Delete: they go by the CAS of the live document alone.
ghost use Rattle.std.specs.Prelude.{◌≡◌, ◌≤◌, [], length};
ghost use Rattle.ep_model.specs.Limits.{IsKey, IsMoment, IsValue};
ghost use Rattle.ep_model.specs.Stripes.{stripe_of};
ghost use Rattle.vb_front.specs.Writes.{shown_world, store_row, delete_row, write_answer, Wrote};

use super::puts::{Draft, fit, put, step_of};
use crate::get::answer;
use crate::part::StripePart;
use crate::step::Step;
use ckpt_manager::Queue;
use ep_model::{Reply, StoreKind, Ticket, rules};

/// Set, Add and Replace.
pub(crate) fn store(
    part: &mut StripePart,
    queue: &mut Queue,
    prior: Option<Ticket>,
    kind: StoreKind,
    key: &[u8],
    text: &[u8],
    flags: u32,
    expiration: u32,
    cas: u64,
    now: u64,
    current: Option<u64>,
) -> Step
    requires key { IsKey key.now }
    requires home { stripe_of key.now part.old.table.stripes ≡ part.old.table.index }
    requires text { IsValue text.now }
    requires moment { IsMoment now }
    ensures comes { Wrote part.old queue.old (write_answer part.old queue.old prior (store_row
        (shown_world part.old.table queue.old) kind key.now text.now flags expiration cas now
        current)) result part.new queue.new }
    ensures value { [] ≡ (write_answer part.old queue.old prior (store_row
        (shown_world part.old.table queue.old) kind key.now text.now flags expiration cas now
        current)).value }
{
    let refused = rules::size_refusal(fit(&part.table, queue), key.len(), text.len())
        .or(rules::store_refusal(kind, cas, current))
        .or(rules::number_refusal(queue.high()));
    if let Some(status) = refused {
        return answer(part, prior, Reply::refusal(status));
    }
    let draft = Draft {
        flags,
        expiry: rules::stored_expiry(expiration, now),
        deleted: false,
    };
    step_of(put(part, queue, prior, key, draft, text, 0, now))
}

/// Delete leaves a tombstone.
pub(crate) fn delete(
    part: &mut StripePart,
    queue: &mut Queue,
    prior: Option<Ticket>,
    key: &[u8],
    cas: u64,
    now: u64,
    current: Option<u64>,
) -> Step
    requires key { IsKey key.now }
    requires home { stripe_of key.now part.old.table.stripes ≡ part.old.table.index }
    requires moment { IsMoment now }
    ensures comes { Wrote part.old queue.old (write_answer part.old queue.old prior (delete_row
        (shown_world part.old.table queue.old) key.now cas now current)) result part.new queue.new }
    ensures value { [] ≡ (write_answer part.old queue.old prior (delete_row
        (shown_world part.old.table queue.old) key.now cas now current)).value }
{
    let refused = rules::wanted_refusal(cas, current).or(rules::number_refusal(queue.high()));
    if let Some(status) = refused {
        return answer(part, prior, Reply::refusal(status));
    }
    let draft = Draft {
        flags: 0,
        expiry: 0,
        deleted: true,
    };
    step_of(put(part, queue, prior, key, draft, &[], 0, now))
}
