// A document that is put where there is room.
ghost use Rattle.std.specs.Prelude.{◌≡◌, ◌+◌, ◌-◌, ◌<◌, ◌≤◌, ◌^◌, [], ℕ, List, None, Some, not, min, length, true};
ghost use Rattle.ep_model.specs.Limits.{IsKey, IsMoment, IsValue, end_of_moments};
ghost use Rattle.ep_model.specs.Refusals.{number_refusal};
ghost use Rattle.ep_model.specs.Stripes.{stripe_of};
ghost use Rattle.ep_model.specs.World.{blocks, next_doc};
ghost use Rattle.ep_model.specs.Answer.{put_success};
ghost use Rattle.hash_stripe.specs.Nodes.{EjectsOthers, placed};
ghost use Rattle.hash_stripe.specs.Stripes.{Fits};
ghost use Rattle.ckpt_manager.specs.Queue.{CanHold, Expelled, NoneTooMany, queued};
ghost use Rattle.vb_front.specs.Waits.{release, has_no_room};
ghost use Rattle.vb_front.specs.Writes.{shown_world, lacks_room, step_of, forget, write_answer, Wrote};

use crate::controls::newest;
use crate::part::StripePart;
use crate::step::Step;
use crate::wait;
use ckpt_manager::Queue;
use ep_model::status::SUCCESS;
use ep_model::{Cause, Meta, Reply, Ticket, rules};
use hash_stripe::Stripe;

/// A document before it has its numbers and its value.
#[derive(Clone, Copy)]
pub(crate) struct Draft {
    pub(crate) flags: u32,
    pub(crate) expiry: u32,
    pub(crate) deleted: bool,
}

/// How many blocks a document may take at most: it has to fit the stripe and the queue.
pub(crate) fn fit(table: &Stripe, queue: &Queue) -> u32
    ensures { result ≡ min (length table.now.slots) queue.now.blocks }
{
    table.blocks().min(queue.blocks())
}

/// Makes room for a document of a key with a value of this length in the stripe and then in the queue, and answers whether
/// there is.
fn make_room(table: &mut Stripe, queue: &mut Queue, key: &[u8], len: u32) -> bool
    requires key { IsKey key.now }
    requires len { len ≤ 1048576 }
    ensures room { result ≡ not (lacks_room table.old queue.old key.now len) }
    ensures rest { table.new ≡ record table.old { slots = table.new.slots } }
    ensures ejects { EjectsOthers table.old.eviction table.old.mark key.now
        (blocks (length key.now) + blocks len) table.old.slots table.new.slots }
    ensures fits { result ≡ true → Fits key.now (blocks (length key.now) + blocks len)
        table.new.slots }
    ensures expelled { Expelled queue.old queue.new }
    ensures least { NoneTooMany queue.old queue.new key.now len }
    ensures behind { has_no_room table.old key.now (blocks (length key.now) + blocks len) ≡ true
        → queue.new ≡ queue.old }
    ensures held { result ≡ true → CanHold queue.new key.now len }
    ensures high { queue.new.high ≡ queue.old.high }
    ensures maxcas { queue.new.maxcas ≡ queue.old.maxcas }
{
    match table.room_for(key, len) {
        Err(_) => false,
        Ok(()) => match queue.room_for(key, len) {
            Err(_) => false,
            Ok(()) => true,
        },
    }
}

/// Puts a document for which there is room into the stripe and the queue. The call's place and all places of its key are free.
fn place(
    part: &mut StripePart,
    queue: &mut Queue,
    prior: Option<Ticket>,
    key: &[u8],
    meta: Meta,
    text: &[u8],
)
    requires key { IsKey key.now }
    requires home { stripe_of key.now part.old.table.stripes ≡ part.old.table.index }
    requires text { IsValue text.now }
    requires len { meta.len ≡ length text.now }
    requires tombstone { meta.deleted ≡ true → text.now ≡ [] }
    requires fits { Fits key.now (blocks (length key.now) + blocks (length text.now))
        part.old.table.slots }
    requires held { CanHold queue.old key.now (length text.now) }
    requires number { queue.old.high < 2 ^ 48 - 1 }
    requires rises { queue.old.maxcas < meta.cas }
    requires stamp { meta.cas ≤ end_of_moments + queue.old.high + 1 }
    ensures table { part.new.table ≡ record part.old.table {
      slots = placed part.old.table.slots
          (record { key = key.now; meta = meta; value = Some text.now; age = 0 });
    } }
    ensures queue { queue.new ≡ queued queue.old key.now meta text.now }
    ensures book { part.new.book ≡ forget (release part.old.book prior) key.now }
{
    queue.queue(key, meta, text);
    part.table.place(key, meta, text);
    wait::release(&mut part.book, prior);
    part.book.forget(key);
}

/// Puts a document where there is room for it, and answers with its numbers and the flags that the call shows. Where there
/// is none it answers nothing. The call's place is free in any case.
pub(crate) fn put(
    part: &mut StripePart,
    queue: &mut Queue,
    prior: Option<Ticket>,
    key: &[u8],
    draft: Draft,
    text: &[u8],
    shown: u32,
    now: u64,
) -> Option<Reply>
    requires key { IsKey key.now }
    requires home { stripe_of key.now part.old.table.stripes ≡ part.old.table.index }
    requires text { IsValue text.now }
    requires tombstone { draft.deleted ≡ true → text.now ≡ [] }
    requires number { number_refusal queue.old.high ≡ None }
    requires moment { IsMoment now }
    ensures { (value : List ℕ) → Wrote part.old queue.old (write_answer part.old queue.old prior
        (put_success (shown_world part.old.table queue.old) key.now (next_doc
        (shown_world part.old.table queue.old) text.now draft.flags draft.expiry draft.deleted now)
        shown value)) (step_of result) part.new queue.new }
{
    let len = text.len() as u32;
    let high = queue.high();
    let cas = rules::stamp(queue.maxcas(), now);
    let uuid = newest(queue.table());
    if !make_room(&mut part.table, queue, key, len) {
        wait::release(&mut part.book, prior);
        return None;
    }
    let meta = Meta {
        flags: draft.flags,
        expiry: draft.expiry,
        cas,
        seqno: high + 1,
        deleted: draft.deleted,
        len,
    };
    place(part, queue, prior, key, meta, text);
    Some(Reply {
        status: SUCCESS,
        cas,
        flags: shown,
        uuid,
        seqno: meta.seqno,
    })
}

/// What a call came to whose document was put, or had no room.
pub(crate) fn step_of(reply: Option<Reply>) -> Step
    ensures { result ≡ step_of reply }
{
    match reply {
        None => Step::Refused(Cause::Quota),
        Some(reply) => Step::Done(reply),
    }
}
