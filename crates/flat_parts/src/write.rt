// A Set on its stripe and the queue.
ghost use Rattle.std.specs.Prelude.{◌≡◌, ◌+◌, ◌<◌, ◌^◌, length, IfOk, OnOk, OnErr};
ghost use Rattle.ep_model.specs.Limits.{IsKey, IsMoment, IsValue};
ghost use Rattle.ep_model.specs.Plain.{IsSound};
ghost use Rattle.ep_model.specs.Answer.{Puts};
ghost use Rattle.ep_model.specs.World.{doc_from};
ghost use Rattle.flat_parts.specs.Nodes.{released};
ghost use Rattle.flat_parts.specs.Steps.{stripe_after, queue_after, write_step};
ghost use Rattle.flat_parts.specs.Writes.{write_refusal};

use crate::data::Step;
use crate::node::Node;
use crate::queue::{FlatQueue, Item};
use crate::stripe::FlatStripe;
use crate::{nodes, places};
use ep_model::{Cause, Meta, NoMemory, Reply, StoreKind, Ticket, rules, status};
use std::alloc::Global;

/// A Set at a moment in nanoseconds since 1970, which asked at the ticket `prior` before: refused where the vBucket
/// hasn't opened, and else answered. `fit` is how many blocks a document may take, `expiration` that of the request,
/// and a `cas` of 0 asks for no comparison. Where memory is wanting, nothing has changed. Its cost is linear in
/// the numbers of nodes and of the queue's mutations, and in the length of the value.
pub fn write(
    alloc: Global,
    stripe: &mut FlatStripe,
    queue: &mut FlatQueue,
    fit: u32,
    prior: Option<Ticket>,
    key: &[u8],
    value: &[u8],
    flags: u32,
    expiration: u32,
    cas: u64,
    now: u64,
) -> Result<Step, NoMemory>
    requires key { IsKey key.now }
    requires value { IsValue value.now }
    requires moment { IsMoment now }
    ensures step { IfOk result (λ step. step
        ≡ (write_step stripe.old queue.old fit prior key.now value.now flags expiration
        cas now).step) }
    ensures stripe { OnOk result (stripe.new
        ≡ (write_step stripe.old queue.old fit prior key.now value.now flags expiration
        cas now).stripe) }
    ensures queue { OnOk result (queue.new
        ≡ (write_step stripe.old queue.old fit prior key.now value.now flags expiration
        cas now).queue) }
    ensures err { OnErr result ((stripe.new ≡ stripe.old) × (queue.new ≡ queue.old)) }

    // Memory is wanting only where the document is to be stored.
    ensures memory { OnErr result (
        (write_step stripe.old queue.old fit prior key.now value.now flags expiration
        cas now).queue.high
        ≡ queue.old.high + 1) }
{
    if !stripe.is_opened() {
        stripe.release(prior);
        return Ok(Step::Refused(Cause::Warming));
    }
    if let Some(refused) = refusal(stripe, queue, fit, key, value.len(), cas, now) {
        stripe.release(prior);
        return Ok(Step::Done(Reply::refusal(refused)));
    }
    let meta = Meta {
        flags,
        expiry: rules::stored_expiry(expiration, now),
        cas: rules::stamp(queue.maxcas(), now),
        seqno: queue.high() + 1,
        deleted: false,
        len: value.len() as u32,
    };
    let uuid = queue.uuid();
    put(alloc, stripe, queue, prior, key, meta, value)?;
    Ok(Step::Done(Reply {
        status: status::SUCCESS,
        cas: meta.cas,
        flags: 0,
        uuid,
        seqno: meta.seqno,
    }))
}

/// The status by which a Set of a value of this length is refused, if it is.
fn refusal(
    stripe: &FlatStripe,
    queue: &FlatQueue,
    fit: u32,
    key: &[u8],
    len: usize,
    cas: u64,
    now: u64,
) -> Option<u16>
    requires { len < 2 ^ 63 }
    ensures { result ≡ write_refusal stripe.now queue.now fit key.now len cas now }
{
    rules::state_refusal(stripe.state(), true)
        .or(rules::size_refusal(fit, key.len(), len))
        .or(rules::store_refusal(StoreKind::Set, cas, stripe.live_cas(key, now)))
        .or(rules::number_refusal(queue.high()))
}

/// Puts a document whose value is resident, drops the places that it makes idle, and puts the mutation into the
/// queue, whose greatest numbers are now the document's. Where memory is wanting, nothing has changed.
fn put(
    alloc: Global,
    stripe: &mut FlatStripe,
    queue: &mut FlatQueue,
    prior: Option<Ticket>,
    key: &[u8],
    meta: Meta,
    value: &[u8],
) -> Result<(), NoMemory>
    requires key { IsKey key.now }
    requires value { IsValue value.now }
    requires len { meta.len ≡ length value.now }
    requires sound { IsSound meta.seqno meta.cas }
    ensures stripe { OnOk result (stripe.new ≡ stripe_after
        (record stripe.old { places = released stripe.old.places prior })
        (Puts key.now (doc_from meta value.now))) }
    ensures queue { OnOk result (queue.new ≡ queue_after queue.old
        (Puts key.now (doc_from meta value.now))) }
    ensures err { OnErr result ((stripe.new ≡ stripe.old) × (queue.new ≡ queue.old)) }
{
    let node = Node::copied(alloc, key, meta, value)?;
    let item = Item::copied(alloc, key, meta, value)?;
    stripe.nodes.reserve(1)?;
    queue.items.reserve(1)?;
    nodes::put(&mut stripe.nodes, node);
    places::release(&mut stripe.places, prior);
    places::forget(&mut stripe.places, key);
    queue.items.push_reserved(item);
    queue.high = meta.seqno;
    queue.maxcas = meta.cas;
    Ok(())
}
