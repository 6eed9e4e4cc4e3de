// A call on the vBucket as a whole.
ghost use Rattle.std.specs.Prelude.{◌≡◌, ◌+◌, ◌≤◌, ◌++◌, true, [], length};
ghost use Rattle.std.specs.Int.{w64, to_be_bytes};
ghost use Rattle.ep_model.specs.World.{uuid_of};
ghost use Rattle.ep_model.specs.Answer.{failover_bytes, answer_observe};
ghost use Rattle.ep_model.specs.Limits.{max_value};
ghost use Rattle.ep_model.specs.History.{call_data};
ghost use Rattle.vb_front.specs.declared.step.Step.TheVariants as steps;
ghost use Rattle.vb_front.specs.Controls.{is_control, queue_world, control_step, ControlIsLegal};

use crate::step::Step;
use ckpt_manager::Queue;
use ep_model::status::KEY_NOT_FOUND;
use ep_model::{Call, Cause, Out, Reply};
use failover_table::Failovers;

#[cfg(test)]
mod tests;

/// Appends an entry of a failover table.
fn put_entry(uuid: u64, seqno: u64, value: &mut Out)
    requires { 16 ≤ value.old.spare }
    ensures bytes { value.new.bytes ≡ value.old.bytes
        ++ (to_be_bytes w64 uuid ++ to_be_bytes w64 seqno) }
    ensures spare { value.new.spare + 16 ≡ value.old.spare }
{
    value.push(&uuid.to_be_bytes());
    value.push(&seqno.to_be_bytes());
}

/// Appends a failover table: a uuid and a sequence number for each entry, the newest first.
fn put_table(table: &Failovers, value: &mut Out)
    requires { 400 ≤ value.old.spare }
    ensures bytes { value.new.bytes ≡ value.old.bytes ++ failover_bytes table.now }
    ensures short { length value.new.bytes ≤ length value.old.bytes + 400 }
    ensures room { value.new.spare + length value.new.bytes ≡ value.old.spare
        + length value.old.bytes }
{
    for index in 0..table.count() {
        match table.entry(index) {
            None => unreachable!(),
            Some((uuid, seqno)) => put_entry(uuid, seqno, value),
        }
    }
}

/// The uuid of the newest entry, 0 where there is none.
pub(crate) fn newest(table: &Failovers) -> u64
    ensures { result ≡ uuid_of table.now }
{
    match table.entry(0) {
        None => 0,
        Some((uuid, _)) => uuid,
    }
}

/// The vBucket's numbers, asked under a uuid.
fn observe(queue: &Queue, vb: u16, uuid: u64, value: &mut Out) -> Step
    requires room { 27 ≤ value.old.spare }
    requires empty { value.old.bytes ≡ [] }
    ensures step { result ≡ steps.Done (answer_observe (queue_world queue.now vb) uuid).reply }
    ensures value { value.new.bytes ≡ (answer_observe (queue_world queue.now vb) uuid).value }
    ensures short { length value.new.bytes ≤ 27 }
    ensures room { value.new.spare + length value.new.bytes ≡ value.old.spare
        + length value.old.bytes }
{
    let newest = newest(queue.table());
    if uuid != newest {
        return Step::Done(Reply::refusal(KEY_NOT_FOUND));
    }
    value.push(&[0]);
    value.push(&vb.to_be_bytes());
    value.push(&newest.to_be_bytes());
    value.push(&queue.persisted().to_be_bytes());
    value.push(&queue.high().to_be_bytes());
    Step::Done(Reply::success())
}

/// Does a call on the vBucket as a whole on its queue: it asks for the numbers, the failover table or the state of the vBucket
/// `vb`. The value of the answer goes into `value`, which is emptied first. Its cost is linear in the failover table.
pub fn control(queue: &mut Queue, call: &Call, vb: u16, value: &mut Out) -> Step
    requires call { is_control (call_data call.now) ≡ true }
    requires room { max_value ≤ value.old.spare + length value.old.bytes }
    ensures step { result ≡ (control_step queue.old vb (call_data call.now)).step }
    ensures value { value.new.bytes ≡ (control_step queue.old vb (call_data call.now)).value }
    ensures short { length value.new.bytes ≤ max_value }
    ensures room { value.new.spare + length value.new.bytes ≡ value.old.spare
        + length value.old.bytes }
    ensures queue { queue.new ≡ queue.old }
    ensures legal { ControlIsLegal queue.old vb (call_data call.now)
        (control_step queue.old vb (call_data call.now)) }
{
    value.cut(0);
    if !queue.is_opened() {
        return Step::Refused(Cause::Warming);
    }
    match *call {
        Call::Observe { uuid } => observe(queue, vb, uuid, value),
        Call::Failovers => {
            put_table(queue.table(), value);
            Step::Done(Reply::success())
        }
        Call::GetState => {
            value.push(&queue.state().code().to_be_bytes());
            Step::Done(Reply::success())
        }
        Call::Get { .. }
        | Call::Store { .. }
        | Call::Join { .. }
        | Call::Count { .. }
        | Call::Delete { .. }
        | Call::Touch { .. }
        | Call::SetState { .. } => unreachable!(),
    }
}
