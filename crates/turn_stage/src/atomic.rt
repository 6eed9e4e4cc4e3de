// What a pass does, in atomic steps of its seat.
ghost use Rattle.std.specs.Prelude.{◌≡◌, ◌+◌, ◌<◌, ◌≤◌, ◌↔◌, ℕ, true, false, [], None, IfSome, IfNone, IsTrue};
ghost use Rattle.ep_model.specs.declared.event.PartName.{PartName};
ghost use Rattle.ep_model.specs.History.{event_data};
ghost use Rattle.ep_model.specs.Legal.{May};
ghost use Rattle.hold_stage.specs.Touches.{there};
ghost use Rattle.hold_stage.specs.Grows.{Covered, IsOwn};
ghost use Rattle.hold_stage.specs.Slots.{slot_of};
ghost use Rattle.turn_stage.specs.Slots.{has, without_part};
ghost use Rattle.turn_stage.specs.Plays.{Looked, Notes, Begins};
ghost use Rattle.turn_stage.specs.Seats.{IsResting, Taken, Missed};

use crate::rule::{
    BeginsAt, Board, GivesBack, Looks, NotesOf, Noting, PicksUp, PutsDown, Seat, Tries,
};
use ep_model::{Event, PartName};
use hold_stage::{Beginning, Stands};

// The word that counts the events.
const COUNT: usize = 0;

// Whether a part's turn is nobody's.
fn is_free(turn: u64) -> bool
    ensures { IsTrue result ↔ (turn ≡ 0) }
{
    turn == 0
}

// Wins the turn of the part at a slot and takes the part out, or counts that somebody else has it. Two steps, or one; the
// slot is moved between them as plain memory.
pub fn take<P: Stands>(
    board: &Board<P>,
    seat: &mut Seat<P>,
    part: PartName,
    slot: usize,
) -> Option<P>
    requires board { seat.old.table_id ≡ board.now.table_id }
    requires rest { IsResting seat.old.me }
    requires word { slot + 1 < board.now.table_id.words }
    requires small { slot ≤ 65536 }
    requires slot { slot ≡ slot_of (seat.old.me.0).front.config part }
    requires there { there (seat.old.me.0).front.config part ≡ true }
    ensures board { seat.new.table_id ≡ seat.old.table_id }
    ensures rest { IsResting seat.new.me }
    ensures taken { IfSome result (λ x. Taken P.stands part seat.old.me.0 seat.new.me.0 x) }
    ensures lost { IfNone result (Missed P.stands part seat.old.me.0 seat.new.me.0) }
{
    if !is_free(board.compare_exchange::<Tries>(seat, slot + 1, 0, 1)) {
        return None;
    }
    let value = board.exchange(seat, slot, None);
    board.load::<PutsDown>(seat, slot + 1);
    value
}

// Lets the front grow by what others noted, by how much no clause says. One step.
pub fn look<P: Stands>(board: &Board<P>, seat: &mut Seat<P>)
    requires board { seat.old.table_id ≡ board.now.table_id }
    requires words { 0 < board.now.table_id.words }
    requires rest { IsResting seat.old.me }
    ensures board { seat.new.table_id ≡ seat.old.table_id }
    ensures rest { IsResting seat.new.me }
    ensures looked { Looked P.stands seat.old.me seat.new.me }
{
    board.load::<Looks>(seat, COUNT);
}

// Notes the event that `E` names. One step.
pub fn note<P: Stands, E: Noting>(board: &Board<P>, seat: &mut Seat<P>)
    requires board { seat.old.table_id ≡ board.now.table_id }
    requires words { 0 < board.now.table_id.words }
    requires rest { IsResting seat.old.me }
    requires covered { Covered (has (seat.old.me.0).held) (seat.old.me.0).front E.event }
    requires may { May (seat.old.me.0).front E.event }
    requires own { IsOwn (seat.old.me.0).caller (seat.old.me.0).desk E.event }
    ensures board { seat.new.table_id ≡ seat.old.table_id }
    ensures rest { IsResting seat.new.me }
    ensures noted { Notes P.stands E.event seat.old.me seat.new.me }
{
    board.fetch_add::<NotesOf<E>>(seat, COUNT, 1);
}

// Puts the start that `B` names. One step.
pub fn begin<P: Stands, B: Beginning>(board: &Board<P>, seat: &mut Seat<P>)
    requires board { seat.old.table_id ≡ board.now.table_id }
    requires words { 0 < board.now.table_id.words }
    requires rest { IsResting seat.old.me }
    requires none { ((seat.old.me.0).front).start ≡ None }
    requires desk { (seat.old.me.0).desk ≡ true }
    requires all { (p : PartName) → there ((seat.old.me.0).front).config p ≡ true
        → has (seat.old.me.0).held p ≡ true }
    ensures board { seat.new.table_id ≡ seat.old.table_id }
    ensures rest { IsResting seat.new.me }
    ensures begun { Begins B.start seat.old.me seat.new.me }
{
    board.load::<BeginsAt<B>>(seat, COUNT);
}

// Puts a part back into its slot and gives its turn. Two steps.
pub fn give<P: Stands + Drop>(
    board: &Board<P>,
    seat: &mut Seat<P>,
    part: PartName,
    slot: usize,
    value: P,
)
    requires board { seat.old.table_id ≡ board.now.table_id }
    requires rest { IsResting seat.old.me }
    requires word { slot + 1 < board.now.table_id.words }
    requires small { slot ≤ 65536 }
    requires slot { slot ≡ slot_of (seat.old.me.0).front.config part }
    requires there { there (seat.old.me.0).front.config part ≡ true }
    requires held { has (seat.old.me.0).held part ≡ true }
    requires stands { P.stands part (seat.old.me.0).front value }
    ensures board { seat.new.table_id ≡ seat.old.table_id }
    ensures rest { IsResting seat.new.me }
    ensures given { seat.new.me.0 ≡ record (seat.old.me.0)
        { held = without_part part (seat.old.me.0).held } }
{
    board.load::<PicksUp>(seat, slot + 1);
    board.exchange(seat, slot, Some(value));
    board.store::<GivesBack>(seat, slot + 1, 0);
}
