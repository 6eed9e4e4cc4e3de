// A caller's turn: its next call is tried.
ghost use Rattle.std.specs.Prelude.{◌≡◌, ◌+◌, ◌^◌, ◌<◌, length, Some, None, IsSome, IfOk, OnErr};
ghost use Rattle.std.specs.List.{AllByRecursion};
ghost use Rattle.ep_model.specs.Limits.{IsMoment, max_value};
ghost use Rattle.vb_world.specs.World.{front_in, Sound};
ghost use Rattle.ep_drill.specs.Parts.{part_stands};
ghost use Rattle.ep_drill.specs.Callers.{CallerStands, caller_data, next_of, after_step, tried_of};
ghost use Rattle.ep_drill.specs.Core.{IsOn, NextMayWant, Ready, Rested, CallerTurned};
ghost use Rattle.ep_drill.specs.Stepped.{answer_of};

use crate::choice::{Answer, Tried};
use crate::owned::Caller;
use crate::part::Part;
use crate::worked::try_loaded;
use ep_model::{Config, NoMemory, Out, Reply};
use flat_parts::Step;
use std::alloc::Global;
use vb_world::World;

// What a caller is told of what its call came to.
fn tried_of(step: Step) -> Tried
    ensures { result ≡ tried_of step }
{
    match step {
        Step::Done(reply) => Tried::Done(reply),
        Step::Refused(cause) => Tried::Done(Reply::refusal(cause.status())),
        Step::Fetch(ticket) => Tried::Fetch(ticket),
        Step::FetchFull => Tried::FetchFull,
    }
}

/// What a core answers of a caller's turn.
pub(crate) fn answer_of(tried: Result<Option<Step>, NoMemory>) -> Result<Answer, NoMemory>
    ensures { result ≡ answer_of tried }
{
    match tried {
        Ok(Some(step)) => Ok(Answer::Tried(tried_of(step))),
        Ok(None) => Ok(Answer::Nothing),
        Err(NoMemory) => Err(NoMemory),
    }
}

// A caller after its next call came to this.
fn advance(caller: &mut Caller, step: Step)
    requires { caller.old.answered < length caller.old.calls.items }
    ensures { caller_data caller.new ≡ after_step step (caller_data caller.old) }
{
    match step {
        Step::Done(_) | Step::Refused(_) => {
            caller.answered += 1;
            caller.prior = None;
        }
        Step::Fetch(ticket) => caller.prior = Some(ticket),
        Step::FetchFull => {}
    }
}

/// Tries a caller's next call: none where all are answered. Where memory is wanting nothing was noted.
pub(crate) fn try_next(
    alloc: Global,
    config: &Config,
    world: &mut World<Part>,
    number: u64,
    caller: &mut Caller,
    now: u64,
    value: &mut Out,
) -> Result<Option<Step>, NoMemory>
    requires ready { Ready config.now world.old }
    requires sound { Sound part_stands world.old }
    requires stands { CallerStands (front_in world.old) number (caller_data caller.old) }
    requires loaded { AllByRecursion (IsOn config.now) (caller_data caller.old).calls }
    requires moment { IsMoment now }
    requires value { value.old.spare + length value.old.bytes ≡ max_value }
    ensures ok { IfOk result (CallerTurned config.now number now world.old world.new
        (caller_data caller.old) (caller_data caller.new) value.new.bytes) }
    ensures err { OnErr result (Rested config.now world.old world.new
        × (caller_data caller.new ≡ caller_data caller.old)
        × IsSome (next_of (caller_data caller.old))) }
    ensures memory { OnErr result (NextMayWant config.now world.old (caller_data caller.old) now) }
    ensures sound { Sound part_stands world.new }
    ensures value { value.new.spare + length value.new.bytes ≡ max_value }
{
    let Some(loaded) = caller.calls.get(caller.answered) else {
        return Ok(None);
    };
    value.cut(0);
    match try_loaded(
        alloc,
        config,
        world,
        number,
        loaded,
        now,
        caller.prior,
        value,
    ) {
        Ok(step) => {
            advance(caller, step);
            Ok(Some(step))
        }
        Err(NoMemory) => Err(NoMemory),
    }
}
