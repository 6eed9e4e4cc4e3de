// The plain map's answers to the calls without a key.
ghost use Rattle.std.specs.Prelude.{◌≡◌, ◌+◌, ◌≤◌, [], ◌++◌, length};
ghost use Rattle.std.specs.Int.{w32, to_be_bytes};
ghost use Rattle.ep_model.specs.Answer.{answer_observe, answer_set_state, apply, failover_bytes, shows, state_code};
ghost use Rattle.ep_model.specs.Limits.{max_value};

use super::Plain;
use crate::{Out, Reply, VbState, status};

/// The newest uuid, since the failover table is empty.
const NO_UUID: u64 = 0;

/// The greatest number that is stored.
const NOTHING_STORED: u64 = 0;

impl Plain {
    pub(super) fn observe(&self, uuid: u64, value: &mut Out) -> Reply
        requires { max_value ≤ value.old.spare }
        ensures reply { result ≡ (answer_observe self.now uuid).reply }
        ensures value { value.new.bytes ≡ value.old.bytes ++ (answer_observe self.now uuid).value }
        ensures room { value.new.spare + length value.new.bytes ≡ value.old.spare
            + length value.old.bytes }
    {
        let id = self.id;
        let high = self.high;
        if uuid != NO_UUID {
            return Reply::refusal(status::KEY_NOT_FOUND);
        }
        value.push(&[0]);
        value.push(&id.to_be_bytes());
        value.push(&NO_UUID.to_be_bytes());
        value.push(&NOTHING_STORED.to_be_bytes());
        value.push(&high.to_be_bytes());
        Reply::success()
    }

    /// The empty table.
    pub(super) fn failovers(&self) -> Reply
        ensures reply { result ≡ (shows 0 0 []).reply }
        ensures value { failover_bytes self.now.failovers ≡ [] }
    {
        // It is the view of the fields that has the empty table.
        let _ = &self.id;
        Reply::success()
    }

    pub(super) fn set_state(&mut self, state: VbState) -> Reply
        ensures reply { result ≡ (answer_set_state state).reply }
        ensures world { self.new ≡ apply self.old (answer_set_state state).effect }
    {
        self.state = state;
        Reply::success()
    }

    pub(super) fn get_state(&self, value: &mut Out) -> Reply
        requires { max_value ≤ value.old.spare }
        ensures reply { result ≡ (shows 0 0 []).reply }
        ensures value { value.new.bytes ≡ value.old.bytes
            ++ to_be_bytes w32 (state_code self.now.state) }
        ensures room { value.new.spare + length value.new.bytes ≡ value.old.spare
            + length value.old.bytes }
    {
        value.push(&self.state.code().to_be_bytes());
        Reply::success()
    }
}
