// The stored history of many vBuckets.
ghost use Rattle.std.specs.Prelude.{◌≡◌, ◌∷◌, [], ◌++◌, ◌<◌, length, OnOk, OnErr, slice_get, Some};
ghost use Rattle.ep_model.specs.History.{event_data};
ghost use Rattle.vb_world.specs.EventLog.{pairs_of, HasAllBytes};

use crate::event_log;
use crate::event_log::EventLog;
use ep_model::{Event, NoMemory};
use std::alloc::Global;
use std::marker::Model;

/// What happened to some vBuckets: their events in order, each with the number of its vBucket. It grows with what
/// is noted, by the bytes of each call and answer and a constant for each event.
#[derive(Drop)]
pub struct History {
    log: EventLog,
}

impl Model for History {
    ghost use Rattle.std.specs.Prelude.{ℕ, List};
    ghost use Rattle.ep_model.specs.declared.data.EventData.{EventData};
    ghost use Rattle.vb_world.specs.EventLog.{pairs_of, HasAllBytes};

    ghost Value = { List (ℕ × EventData) };

    ghost view = { λ h. pairs_of h.log };

    ghost invariant = { λ h. HasAllBytes h.log };
}

impl History {
    /// No event yet. It takes no memory.
    pub fn new(alloc: Global) -> History
        ensures { result ≡ [] }
    {
        History {
            log: EventLog {
                events: Vec::new(alloc),
                bytes: Vec::new(alloc),
            },
        }
    }

    // The events that a log holds.
    pub(crate) fn of_log(log: EventLog) -> History
        requires { HasAllBytes log }
        ensures { result ≡ pairs_of log }
    {
        History { log }
    }

    /// Notes an event of the vBucket `vb`. At an error nothing was noted. Its cost is linear in the bytes of
    /// the event's keys and values.
    pub fn note(&mut self, vb: u16, event: &Event) -> Result<(), NoMemory>
        ensures ok { OnOk result (self.new ≡ self.old ++ (vb, event_data event.now) ∷ []) }
        ensures err { OnErr result (self.new ≡ self.old) }
    {
        event_log::note(&mut self.log, vb, event)
    }

    /// How many events it has.
    pub fn count(&self) -> usize
        ensures { result ≡ length self.now }
    {
        self.log.events.len()
    }

    /// One event, counted from 0, with the number of its vBucket. It takes constant time.
    pub fn event(&self, index: usize) -> (u16, Event<'_>)
        requires { index < length self.now }
        ensures { slice_get self.now index ≡ Some (result.0, event_data result.1) }
    {
        event_log::lend_event(&self.log, index)
    }
}
