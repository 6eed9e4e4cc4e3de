// Calls on a vBucket as a whole, with the bytes of their answers as kv_engine sends them.
ghost use Rattle.std.specs.Prelude.{◌≡◌, ◌+◌, ◌≤◌, true, length, IfOk};
ghost use Rattle.ep_model.specs.History.{call_data};
ghost use Rattle.ep_model.specs.Limits.{max_value};
ghost use Rattle.ckpt_manager.specs.Queue.{fresh};
ghost use Rattle.vb_front.specs.Controls.{is_control};

use super::control;
use crate::step::Step;
use ckpt_manager::Queue;
use ep_model::status::{KEY_NOT_FOUND, SUCCESS};
use ep_model::{Call, Cause, Config, Eviction, Meta, OpenFault, Out, Reply, VbState};
use failover_table::Failovers;
use std::alloc::Global;

/// A queue without mutations, whose vBucket hasn't opened.
fn empty_queue(alloc: Global) -> Result<Queue, OpenFault>
    ensures { IfOk result (λ q. q ≡ fresh 16 2) }
{
    let config = Config {
        vbuckets: 1,
        stripes: 1,
        blocks: 16,
        ckpt_blocks: 16,
        ckpt_max: 2,
        eviction: Eviction::Value,
        early: false,
    };
    match config.fault() {
        Some(field) => Err(OpenFault::BadConfig(field)),
        None => Queue::new(alloc, &config).map_err(|_| OpenFault::NoMemory),
    }
}

/// Queues a mutation of the key `a` with an empty value, where there is room.
fn put(queue: &mut Queue) {
    if queue.high() >= 10_000 || queue.room_for(b"a", 0).is_err() {
        return;
    }
    let cas = queue.maxcas() + 1;
    let meta = Meta {
        flags: 0,
        expiry: 0,
        cas,
        seqno: 0,
        deleted: false,
        len: 0,
    };
    queue.queue(b"a", meta, b"");
}

/// Whether the call on the vBucket 0x0102 comes to this step with this value.
fn comes_to(queue: &mut Queue, call: &Call, value: &mut Out, step: Step, text: &[u8]) -> bool
    requires call { is_control (call_data call.now) ≡ true }
    requires room { max_value ≤ value.old.spare + length value.old.bytes }
    ensures room { value.new.spare + length value.new.bytes ≡ value.old.spare
        + length value.old.bytes }
{
    control(queue, call, 0x0102, value) == step && *value.bytes() == *text
}

/// A status alone.
fn done(status: u16) -> Step {
    Step::Done(Reply::refusal(status))
}

/// Without a failover table the uuid is 0, and nothing is answered before the vBucket has opened.
fn answers_once_opened(alloc: Global) -> bool {
    let (Ok(mut value), Ok(mut queue)) = (Out::new(alloc, 1_048_576), empty_queue(alloc)) else {
        return false;
    };
    value.push(b"left");
    let warming = Step::Refused(Cause::Warming);
    let zero = Call::Observe { uuid: 0 };
    let no_numbers = comes_to(&mut queue, &zero, &mut value, warming, b"");
    let no_table = comes_to(&mut queue, &Call::Failovers, &mut value, warming, b"");
    let no_state = comes_to(&mut queue, &Call::GetState, &mut value, warming, b"");
    queue.set_opened();
    let table = comes_to(&mut queue, &Call::Failovers, &mut value, done(SUCCESS), b"");
    let zeros = b"\x00\x01\x02\0\0\0\0\0\0\0\0\0\0\0\0\0\0\0\0\0\0\0\0\0\0\0\0";
    let numbers = comes_to(&mut queue, &zero, &mut value, done(SUCCESS), zeros);
    no_numbers && no_table && no_state && table && numbers
}

#[test]
fn calls_on_a_vbucket_have_these_bytes(rt: HostRuntime) {
    assert!(rt; answers_once_opened(rt.alloc()));
}

/// A queue of two mutations behind a start with two entries.
fn started_queue(alloc: Global) -> Option<Queue> {
    let Ok(mut queue) = empty_queue(alloc) else {
        return None;
    };
    let mut table = Failovers::new();
    table.add(0x21, 0);
    table.add(0x1122_3344_5566_7788, 0x0708);
    queue.start(0x0709, 20, &table);
    queue.set_opened();
    put(&mut queue);
    put(&mut queue);
    Some(queue)
}

/// The numbers are shown under the newest uuid alone. No state refuses these calls.
fn shows_all(alloc: Global) -> bool {
    let (Ok(mut value), Some(mut queue)) = (Out::new(alloc, 1_048_576), started_queue(alloc)) else {
        return false;
    };
    let newest = Call::Observe {
        uuid: 0x1122_3344_5566_7788,
    };
    let older = Call::Observe { uuid: 0x21 };
    let numbers =
        b"\x00\x01\x02\x11\x22\x33\x44\x55\x66\x77\x88\0\0\0\0\0\0\x07\x09\0\0\0\0\0\0\x07\x0b";
    let entries =
        b"\x11\x22\x33\x44\x55\x66\x77\x88\0\0\0\0\0\0\x07\x08\0\0\0\0\0\0\0\x21\0\0\0\0\0\0\0\0";
    let shown = comes_to(&mut queue, &newest, &mut value, done(SUCCESS), numbers);
    let other = comes_to(&mut queue, &older, &mut value, done(KEY_NOT_FOUND), b"");
    let table = comes_to(
        &mut queue,
        &Call::Failovers,
        &mut value,
        done(SUCCESS),
        entries,
    );
    let active = comes_to(
        &mut queue,
        &Call::GetState,
        &mut value,
        done(SUCCESS),
        b"\0\0\0\x01",
    );
    queue.set_state(VbState::Dead);
    let dead = comes_to(
        &mut queue,
        &Call::GetState,
        &mut value,
        done(SUCCESS),
        b"\0\0\0\x04",
    );
    let again = comes_to(&mut queue, &newest, &mut value, done(SUCCESS), numbers);
    let same = comes_to(
        &mut queue,
        &Call::Failovers,
        &mut value,
        done(SUCCESS),
        entries,
    );
    shown && other && table && active && dead && again && same
}

#[test]
fn numbers_table_and_state_are_shown(rt: HostRuntime) {
    assert!(rt; shows_all(rt.alloc()));
}
