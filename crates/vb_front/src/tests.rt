// Calls on held parts, with their answers written out.
mod asked;
mod at_stage;
mod generated;
mod held;
mod opened;
mod passed;
mod places;
mod refusals;
mod served;
mod waits;
mod worlds;
mod writes;

ghost use Rattle.std.specs.Prelude.{◌≡◌, ◌+◌, ◌≤◌, length};

use crate::{Step, StripePart, read};
use ep_model::status::KEY_NOT_FOUND;
use ep_model::{Call, Cause, Config, Eviction, Out, Reply, Ticket};
use fetch_book::{Book, Outcome};
use hash_stripe::Stripe;
use std::test::Fail;

fn config(eviction: Eviction, blocks: u32, ckpt_blocks: u32) -> Config
    ensures { result.stripes ≡ 1 }
{
    Config {
        vbuckets: 1,
        stripes: 1,
        blocks,
        ckpt_blocks,
        ckpt_max: 5,
        eviction,
        early: false,
    }
}

fn ticket(number: u64) -> Ticket {
    Ticket { stripe: 0, number }
}

/// A Get of the key `k` on the only stripe of a vBucket.
fn get(part: &mut StripePart, prior: Option<Ticket>, value: &mut Out) -> Step
    requires only { part.old.table.stripes ≡ 1 }
    requires first { part.old.table.index ≡ 0 }
    requires room { 1048576 ≤ value.old.spare + length value.old.bytes }
    ensures only { part.new.table.stripes ≡ 1 }
    ensures first { part.new.table.index ≡ 0 }
    ensures room { value.new.spare + length value.new.bytes ≡ value.old.spare
        + length value.old.bytes }
{
    read(part, &Call::Get { key: b"k" }, 0, prior, value)
}

#[test]
fn get_waits_for_what_is_away(rt: HostRuntime) -> Result<(), Fail> {
    let config = config(Eviction::Full, 16, 16);
    assert_eq!(rt; config.fault(), None);
    let mut part = StripePart {
        table: Stripe::new(rt.alloc(), 0, &config)?,
        book: Book::new(rt.alloc(), 0)?,
    };
    let mut value = Out::new(rt.alloc(), 1_048_576)?;
    let warming = get(&mut part, None, &mut value);
    assert_eq!(rt; warming, Step::Refused(Cause::Warming));
    part.table.set_opened();
    let first = get(&mut part, None, &mut value);
    assert_eq!(rt; first, Step::Fetch(ticket(1)));
    let waits = get(&mut part, Some(ticket(1)), &mut value);
    assert_eq!(rt; waits, Step::Fetch(ticket(1)));
    let settled = part.book.settle(ticket(1), Outcome::Failed(1));
    assert!(rt; settled);
    let failed = get(&mut part, Some(ticket(1)), &mut value);
    assert_eq!(rt; failed, Step::Refused(Cause::Store(ticket(1))));
    assert_eq!(rt; part.book.used(), 0);
    let again = get(&mut part, None, &mut value);
    assert_eq!(rt; again, Step::Fetch(ticket(2)));
    let settled = part.book.settle(ticket(2), Outcome::Absent);
    assert!(rt; settled);
    let gone = get(&mut part, Some(ticket(2)), &mut value);
    assert_eq!(rt; gone, Step::Done(Reply::refusal(KEY_NOT_FOUND)));
    Ok(())
}
