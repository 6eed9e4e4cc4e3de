// The vBuckets of a bucket, with their histories.
ghost use Rattle.std.specs.Prelude.{◌≡◌, ◌⊎◌, ◌+◌, ◌<◌, ◌≤◌, ◌++◌, ◌∷◌, [], true, length, slice_get, Some, None, IfOk, IfErr, OnOk, OnErr};
ghost use Rattle.ep_model.specs.declared.event.PartName.{PartName};
ghost use Rattle.ep_model.specs.Config.{config_fault};
ghost use Rattle.ep_model.specs.History.{event_data};
ghost use Rattle.ep_model.specs.Legal.{May};
ghost use Rattle.hold_stage.specs.Touches.{there, touches, bytes_of};
ghost use Rattle.vb_world.specs.declared.place.Place.TheVariants.{Home as AtHome, Out as OutWith};
ghost use Rattle.vb_world.specs.World.{front_in, part_in, with_place, with_origin, with_loss, with_bucket, no_buckets, StandBare, Sound};

use crate::event_log;
use crate::event_log::EventLog;
use crate::history::History;
use crate::origin::Origin;
use crate::place::{Bucket, Place, bucket_of, put_at, take_at};
use ep_model::{Busy, Config, Event, NoMemory, PartName};
use hold_stage::{Beginning, Stands, slot_of};
use std::alloc::Global;
use std::marker::Model;

/// The vBuckets of a bucket for one thread: the places of their parts, and what happened to all of them in order. A
/// vBucket is named by its number, counted from 0.
#[derive(Drop)]
pub struct World<P: Stands + Drop> {
    config: Config,
    log: EventLog,
    buckets: Vec<Bucket<P>>,
    losses: u64,
}

impl<P: Stands + Drop> Model for World<P> {
    ghost use Rattle.vb_world.specs.declared.data.WorldData.{WorldData};
    ghost use Rattle.vb_world.specs.EventLog.{HasAllBytes};
    ghost use Rattle.vb_world.specs.Buckets.{world_data};
    ghost use Rattle.vb_world.specs.World.{Sound};

    ghost Value = { WorldData P };

    ghost view = { λ w. world_data w.config w.log w.buckets.items w.losses };

    ghost invariant = { λ w. HasAllBytes w.log × Sound P.stands
        (world_data w.config w.log w.buckets.items w.losses) };
}

impl<P: Stands + Drop> World<P> {
    /// A world with no vBucket, in which nothing happened. It takes the room for as many vBuckets as `config`
    /// says, and fails only for want of memory.
    pub fn new(alloc: Global, config: &Config) -> Result<World<P>, NoMemory>
        requires { config_fault config.now ≡ None }
        ensures new { IfOk result (λ w. w ≡ no_buckets config.now) }
        ensures sound { IfOk result (λ w. Sound P.stands w) }
    {
        let buckets = Vec::with_capacity(alloc, usize::from(config.vbuckets))?;
        Ok(World {
            config: *config,
            log: EventLog {
                events: Vec::new(alloc),
                bytes: Vec::new(alloc),
            },
            buckets,
            losses: 0,
        })
    }

    /// Adds the next vBucket, with its parts: the stripes in order, the queue and the desk, which stand for a
    /// history in which nothing is known to have happened. At an error, for want of memory, nothing was added.
    /// Linear in the number of parts.
    pub fn add(&mut self, parts: Vec<P>) -> Result<(), NoMemory>
        requires room { length self.old.buckets < self.old.config.vbuckets }
        requires parts { length parts.items ≡ self.old.config.stripes + 2 }
        requires stand { StandBare P.stands self.old.config (length self.old.buckets) parts.items }
        ensures ok { OnOk result (self.new ≡ with_bucket self.old parts.items) }
        ensures err { OnErr result (self.new ≡ self.old) }
        ensures sound { Sound P.stands self.new }
    {
        let bucket = bucket_of(*self.buckets.allocator(), parts)?;
        self.buckets.push(bucket)?;
        Ok(())
    }

    /// Takes room for so many more events, with so many more bytes of keys and values. At an error memory was wanting,
    /// for which there was no room before, and it has room for no fewer than then. Linear in what was noted where that
    /// has to move.
    pub fn reserve(&mut self, events: usize, bytes: usize) -> Result<(), NoMemory>
        ensures same { self.new ≡ record self.old {
          event_room = self.new.event_room;
          byte_room = self.new.byte_room;
        } }
        ensures ok { OnOk result ((events ≤ self.new.event_room) × (bytes ≤ self.new.byte_room)) }
        ensures err { OnErr result ((self.old.event_room < events) ⊎ (self.old.byte_room < bytes)) }
        ensures events { self.old.event_room ≤ self.new.event_room }
        ensures bytes { self.old.byte_room ≤ self.new.byte_room }
        ensures sound { Sound P.stands self.new }
    {
        event_log::reserve(&mut self.log, events, bytes)
    }

    /// How many vBuckets it has. Constant time.
    pub fn count(&self) -> usize
        ensures count { result ≡ length self.now.buckets }
        ensures sound { Sound P.stands self.now }
    {
        self.buckets.len()
    }

    /// What happened to its vBuckets, in order. The parts are dropped.
    pub fn into_history(self) -> History
        ensures { result ≡ self.history }
    {
        History::of_log(self.log)
    }

    // Takes a part out for a caller, or counts that it was out, or that there is no such vBucket.
    pub(crate) fn take(&mut self, vb: u16, caller: u64, part: PartName) -> Result<P, Busy>
        requires { there self.old.config part ≡ true }
        ensures taken { IfOk result (λ x. part_in self.old vb part ≡ Some x) }
        ensures out { OnOk result (self.new ≡ with_place self.old vb part (OutWith caller)) }
        ensures busy { IfErr result (λ b. b.part ≡ part) }
        ensures away { OnErr result (part_in self.old vb part ≡ None) }
        ensures lost { OnErr result (self.new ≡ with_loss self.old) }
        ensures was_sound { Sound P.stands self.old }
        ensures sound { Sound P.stands self.new }
    {
        let slot = slot_of(&self.config, part);
        match take_at(&mut self.buckets, usize::from(vb), slot, caller) {
            Some(value) => Ok(value),
            None => {
                self.losses = self.losses.saturating_add(1);
                Err(Busy { part })
            }
        }
    }

    // Notes an event of a vBucket while no part that it touches is at home.
    pub(crate) fn note(&mut self, vb: u16, event: &Event)
        requires vb { vb < length self.old.buckets }
        requires away { (p : PartName) → touches (front_in self.old vb) (event_data event.now) p
            ≡ true → part_in self.old vb p ≡ None }
        requires may { May (front_in self.old vb) (event_data event.now) }
        requires event { 1 ≤ self.old.event_room }
        requires bytes { bytes_of (event_data event.now) ≤ self.old.byte_room }
        ensures noted { self.new ≡ record self.old {
          history = self.old.history ++ (vb, event_data event.now) ∷ [];
          event_room = self.new.event_room;
          byte_room = self.new.byte_room;
        } }
        ensures events { self.old.event_room ≤ self.new.event_room + 1 }
        ensures bytes { self.old.byte_room ≤ self.new.byte_room + bytes_of (event_data event.now) }
        ensures was_sound { Sound P.stands self.old }
        ensures sound { Sound P.stands self.new }
    {
        let noted = event_log::note(&mut self.log, vb, event);
        prove!(noted.is_ok());
    }

    // Puts the start of a vBucket of which no part is at home.
    pub(crate) fn begin<B: Beginning>(&mut self, vb: u16)
        requires vb { vb < length self.old.buckets }
        requires none { (front_in self.old vb).start ≡ None }
        requires away { (p : PartName) → part_in self.old vb p ≡ None }
        ensures begun { self.new ≡ with_origin self.old vb B.start }
        ensures was_sound { Sound P.stands self.old }
        ensures sound { Sound P.stands self.new }
    {
        let bucket = &mut self.buckets[usize::from(vb)];
        bucket.origin = Origin::at::<B>();
    }

    // Gives a part back.
    pub(crate) fn give(&mut self, vb: u16, part: PartName, value: P)
        requires vb { vb < length self.old.buckets }
        requires there { there self.old.config part ≡ true }
        requires stands { P.stands part (front_in self.old vb) value }
        ensures given { self.new ≡ with_place self.old vb part (AtHome value) }
        ensures was_sound { Sound P.stands self.old }
        ensures sound { Sound P.stands self.new }
    {
        let slot = slot_of(&self.config, part);
        put_at(&mut self.buckets, usize::from(vb), slot, Place::Home(value));
    }
}
