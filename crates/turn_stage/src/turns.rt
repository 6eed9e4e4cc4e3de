// What passes do with their turns.
ghost use Rattle.std.specs.Prelude.{◌≡◌, ◌+◌, ◌^◌, ◌<◌, ◌≤◌, true, false, [], None, IfOk, IfErr, OnErr};
ghost use Rattle.ep_model.specs.declared.event.PartName.{PartName};
ghost use Rattle.ep_model.specs.History.{event_data};
ghost use Rattle.ep_model.specs.Legal.{May, IsLegal};
ghost use Rattle.hold_stage.specs.Touches.{there};
ghost use Rattle.hold_stage.specs.Grows.{IsNone, Covered, IsOwn};
ghost use Rattle.hold_stage.specs.Slots.{bare_front};
ghost use Rattle.turn_stage.specs.Slots.{has, without_part};
ghost use Rattle.turn_stage.specs.Plays.{Looked, Notes, Begins, without_number, with_number, joined_view};
ghost use Rattle.turn_stage.specs.Parts.{AreParts, first_view};
ghost use Rattle.turn_stage.specs.Seats.{Taken, Missed};
ghost use Rattle.turn_stage.specs.Passes.{view_of, numbers_left, IsPassOf, Joined, AreJoined};

use crate::atomic;
use crate::pass::TurnPass;
use crate::rule::{Fronts, Noting, Numbers, TableKey, Tells};
use crate::slots::{in_slots, taken_out};
use crate::stage::TurnStage;
use crate::table::Turns;
use atomic_table::Table;
use ep_model::{Busy, Config, Event, NoMemory, PartName};
use hold_stage::{Beginning, Stands, slot_of};
use std::alloc::Global;
use std::marker::Brand;

impl<P> TurnPass<P> {
    /// How many caller numbers it can still give. Constant time.
    pub fn left(&self) -> u64
        ensures { result ≡ numbers_left (view_of self.now) }
    {
        self.left
    }
}

impl<P: Stands + Drop> Turns<P> {
    // Takes a part out, or counts that somebody else has it.
    pub(crate) fn take(&self, pass: &mut TurnPass<P>, part: PartName) -> Result<P, Busy>
        requires of { IsPassOf self.now pass.old }
        requires there { there (view_of pass.old).front.config part ≡ true }
        ensures of { IsPassOf self.now pass.new }
        ensures taken { IfOk result (λ x. Taken P.stands part (view_of pass.old) (view_of pass.new)
            x) }
        ensures busy { IfErr result (λ b. b.part ≡ part) }
        ensures lost { OnErr result (Missed P.stands part (view_of pass.old) (view_of pass.new)) }
    {
        let slot = slot_of(&self.config, part);
        match atomic::take(&self.table.shared, &mut pass.seat, part, slot) {
            Some(value) => Ok(value),
            None => Err(Busy { part }),
        }
    }

    // Lets the pass's front grow by what others noted.
    pub(crate) fn look(&self, pass: &mut TurnPass<P>)
        requires of { IsPassOf self.now pass.old }
        ensures of { IsPassOf self.now pass.new }
        ensures looked { Looked P.stands pass.old.seat.me pass.new.seat.me }
    {
        atomic::look(&self.table.shared, &mut pass.seat);
    }

    // Notes an event.
    pub(crate) fn note(&self, pass: &mut TurnPass<P>, event: &Event)
        requires of { IsPassOf self.now pass.old }
        requires covered { Covered (has (view_of pass.old).held) (view_of pass.old).front
            (event_data event.now) }
        requires may { May (view_of pass.old).front (event_data event.now) }
        requires own { IsOwn (view_of pass.old).caller (view_of pass.old).desk
            (event_data event.now) }
        ensures of { IsPassOf self.now pass.new }
        ensures noted { Notes P.stands (event_data event.now) pass.old.seat.me pass.new.seat.me }
    {
        self.note_named::<Brand>(pass, event);
    }

    // Notes the event, which `E` names.
    fn note_named<E: Noting>(&self, pass: &mut TurnPass<P>, _event: &Event)
        requires named { E.event ≡ event_data _event.now }
        requires of { IsPassOf self.now pass.old }
        requires covered { Covered (has (view_of pass.old).held) (view_of pass.old).front
            (event_data _event.now) }
        requires may { May (view_of pass.old).front (event_data _event.now) }
        requires own { IsOwn (view_of pass.old).caller (view_of pass.old).desk
            (event_data _event.now) }
        ensures of { IsPassOf self.now pass.new }
        ensures noted { Notes P.stands (event_data _event.now) pass.old.seat.me pass.new.seat.me }
    {
        atomic::note::<P, E>(&self.table.shared, &mut pass.seat);
    }

    // Puts a start, while every part is held.
    pub(crate) fn begin<B: Beginning>(&self, pass: &mut TurnPass<P>)
        requires of { IsPassOf self.now pass.old }
        requires none { (view_of pass.old).front.start ≡ None }
        requires desk { (view_of pass.old).desk ≡ true }
        requires all { (p : PartName) → there (view_of pass.old).front.config p ≡ true
            → has (view_of pass.old).held p ≡ true }
        ensures of { IsPassOf self.now pass.new }
        ensures begun { Begins B.start pass.old.seat.me pass.new.seat.me }
    {
        atomic::begin::<P, B>(&self.table.shared, &mut pass.seat);
    }

    // Gives a part back.
    pub(crate) fn give(&self, pass: &mut TurnPass<P>, part: PartName, value: P)
        requires of { IsPassOf self.now pass.old }
        requires held { has (view_of pass.old).held part ≡ true }
        requires stands { P.stands part (view_of pass.old).front value }
        ensures of { IsPassOf self.now pass.new }
        ensures given { view_of pass.new ≡ record (view_of pass.old)
            { held = without_part part (view_of pass.old).held } }
    {
        let slot = slot_of(&self.config, part);
        atomic::give(&self.table.shared, &mut pass.seat, part, slot, value);
    }
}

impl<P: Stands + Drop> Turns<P> {
    /// The stage of a pass. Constant time.
    pub fn stage<'a>(&'a self, pass: &'a mut TurnPass<P>) -> TurnStage<'a, P>
        requires of { IsPassOf self.now pass.old }
        ensures same_reference { result.pass.ghost_name ≡ pass.entry.ghost_name }
        ensures pass { result.pass.now ≡ pass.old }
        ensures turns { result.turns ≡ self.entry }
    {
        TurnStage { turns: self, pass }
    }

    /// A pass with the next caller number of this one. It knows what this one knows, isn't the desk's and can give no
    /// numbers. One atomic step.
    pub fn split(&self, pass: &mut TurnPass<P>) -> TurnPass<P>
        requires of { IsPassOf self.now pass.old }
        requires left { 0 < numbers_left (view_of pass.old) }
        ensures of { IsPassOf self.now pass.new × IsPassOf self.now result }
        ensures pass { view_of pass.new ≡ without_number (view_of pass.old) }
        ensures new { view_of result ≡ with_number (view_of pass.old) }
    {
        let caller = pass.next;
        let seat = self.table.shared.split_seat::<Numbers>(&mut pass.seat);
        pass.next = pass.next.wrapping_add(1);
        pass.left -= 1;
        TurnPass {
            seat,
            caller,
            next: 0,
            left: 0,
        }
    }

    /// Joins another pass to this one, which gets the longer of the two fronts, and the desk and the numbers of the
    /// other where it has them. Neither holds a part. Two atomic steps.
    pub fn join(&self, pass: &mut TurnPass<P>, other: TurnPass<P>)
        requires of { IsPassOf self.now pass.old × IsPassOf self.now other }
        requires none { IsNone (has (view_of pass.old).held) × IsNone (has (view_of other).held) }
        ensures of { IsPassOf self.now pass.new }
        ensures joined { Joined (view_of pass.old) (view_of other) (view_of pass.new) }
    {
        let shared = &self.table.shared;
        shared.join_seat::<Fronts>(&mut pass.seat, other.seat);
        shared.load::<Tells>(&mut pass.seat, 0);
        if other.left > 0 {
            pass.next = other.next;
            pass.left = other.left;
        }
    }
}

impl<P: Stands + Drop> Turns<P> {
    /// The turns of the parts of the vBucket `vb`: its stripes in order, its queue and its desk, which stand for a
    /// history in which nothing is known to have happened. The first pass is caller 0 and the desk's, and can give
    /// every other number. At an error, for want of memory, the parts are dropped. Linear in the number of parts.
    pub fn new(
        alloc: Global,
        config: &Config,
        vb: u16,
        parts: Vec<P>,
    ) -> Result<(Turns<P>, TurnPass<P>), NoMemory>
        requires stripes { 0 < config.now.stripes }
        requires parts { AreParts P.stands (bare_front config.now vb) parts.items }
        ensures of { IfOk result (λ r. IsPassOf r.0 r.1) }
        ensures first { IfOk result (λ r. view_of r.1 ≡ first_view config.now vb) }
    {
        let count = parts.len();
        let room = Vec::with_capacity(alloc, count)?;
        let words = Vec::from_elem(alloc, 0u64, usize::from(config.stripes) + 3)?;
        let slots = in_slots(alloc, parts)?;
        let place = TableKey {
            config: *config,
            vb,
        };
        let Ok((table, seat)) = Table::new(alloc, words.as_slice(), slots, &place) else {
            return Err(NoMemory);
        };
        let turns = Turns {
            table,
            config: *config,
            room,
        };
        let pass = TurnPass {
            seat,
            caller: 0,
            next: 1,
            left: u64::MAX,
        };
        Ok((turns, pass))
    }

    /// The parts, once every other pass was joined and no part is held. They stand for the pass's front, which has of
    /// each caller whose pass was joined exactly the events that its own last front had. The pass is the desk's, since
    /// one always is. Linear in the number of parts.
    pub fn close(self, pass: TurnPass<P>) -> Vec<P>
        requires of { IsPassOf self pass }
        requires alone { (view_of pass).share ≡ 2 ^ 64 }
        requires none { IsNone (has (view_of pass).held) }
        ensures parts { AreParts P.stands (view_of pass).front result.items }
        ensures legal { IsLegal (view_of pass).front }
        ensures desk { (view_of pass).desk ≡ true }
        ensures joined { AreJoined (view_of pass).front (view_of pass).ended }
    {
        let Turns {
            table,
            config: _,
            room,
        } = self;
        taken_out(table.close_with(pass.seat), room)
    }
}
