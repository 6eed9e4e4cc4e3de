// A pass of the turns of a vBucket.
ghost use Rattle.std.specs.Prelude.{◌≡◌, ◌+◌, ◌^◌, ◌<◌, ◌≤◌, true};
ghost use Rattle.turn_stage.specs.Seats.{is_resting, all_there};

use crate::rule::Seat;

/// A pass: what one thread knows of a vBucket's history, which parts it holds, its caller number, and the numbers
/// that it can give to other passes. Exactly one pass is the desk's.
///
/// A pass that is dropped in place of being joined is lost, with all that it had: what it noted stands, a part that it
/// held is Busy for everybody from then on, the desk or the numbers to give are nobody's, and since its share never
/// comes back, no pass meets the condition of `Turns::close` any more.
#[derive(Drop)]
pub struct TurnPass<P> {
    pub(crate) seat: Seat<P>,
    pub(crate) caller: u64,
    pub(crate) next: u64,
    pub(crate) left: u64,
    pub ghost rests: { is_resting seat.me ≡ true },
    pub ghost there: { all_there (seat.me.0).front.config (seat.me.0).held ≡ true },
    pub ghost caller_is: { caller ≡ (seat.me.0).caller },
    pub ghost next_is: { 0 < left → next ≡ (seat.me.0).next },
    pub ghost left_is: { left + (seat.me.0).next ≡ (seat.me.0).end },
    pub ghost end_is: { (seat.me.0).end ≤ 2 ^ 64 },
}
