// Calls of clients at whoever takes the parts of their vBucket.
ghost use Rattle.std.specs.Prelude.{◌≡◌, ◌+◌, ◌≤◌, ◌<◌, ◌||◌, ℕ, true, false, length, Some, None, IfOk, IfErr, IfSome, MatchResult};
ghost use Rattle.ep_model.specs.declared.data.CallData.TheVariants.{Get};
ghost use Rattle.ep_model.specs.declared.event.PartName.{PartName};
ghost use Rattle.ep_model.specs.declared.event.PartName.TheVariants.{Stripe, Queue};
ghost use Rattle.ep_model.specs.Calls.{has_key, written_key};
ghost use Rattle.ep_model.specs.Counts.{Rose};
ghost use Rattle.ep_model.specs.History.{call_data};
ghost use Rattle.ep_model.specs.Legal.{May, IsLegal};
ghost use Rattle.ep_model.specs.Limits.{IsKey, IsMoment, IsWithin, max_value};
ghost use Rattle.ep_model.specs.Stripes.{stripe_of};
ghost use Rattle.hold_stage.specs.Grows.{Same};
ghost use Rattle.hold_stage.specs.Stays.{Stays, KeptBut};
ghost use Rattle.hold_stage.specs.Touches.{there, is_stripe, is_queue, touches_call};
ghost use Rattle.hold_stage.specs.Went.{with_noted, Went, LeavesRoom, HasRoom};
ghost use Rattle.vb_front.specs.Controls.{is_control};
ghost use Rattle.vb_front.specs.Priors.{key_in, event_of};
ghost use Rattle.hold_stage.specs.Priors.{is_prior, PriorsStand};
ghost use Rattle.vb_front.specs.Tries.{call_bytes, event_by, passed_by, Gets, GetsFrom, IsOut};
ghost use Rattle.vb_front.specs.Tries.{Controls, ControlsFrom, Writes, WritesFrom, FoundElsewhere, IsStepValue, IfBusy};
ghost use Rattle.vb_front.specs.Tries.{kind_of, tried_by, answered_on, passed_on, Tries};
ghost use Rattle.vb_front.specs.declared.at_stage.Kind.TheVariants.{Read, Write, Control, Change};

use crate::controls::control;
use crate::get::read;
use crate::hold::{take_queue, take_stripe};
use crate::part::Part;
use crate::step::Step;
use crate::writes::write;
use ep_edge::{Gate, Point};
use ep_model::{Busy, Call, Config, Event, Out, PartName, Reply, Ticket, stripe_of};
use hold_stage::{Stage, is_prior};

/// What a call came to at whoever takes the parts.
#[derive(Clone, Copy, Debug, PartialEq, Eq)]
pub enum Tried {
    /// It was answered. A refusal for now is a reply of its status alone.
    Done(Reply),
    /// Somebody else has this part. Nothing was noted.
    Busy(Busy),
    /// The call waits for the store at this ticket.
    Fetch(Ticket),
    /// No more calls can wait on the stripe. Nothing was noted.
    FetchFull { stripe: u16 },
}

/// What a call works on.
#[derive(Clone, Copy)]
pub(crate) enum Kind {
    /// The stripe of its key.
    Read,
    /// The stripe of its key and the queue.
    Write,
    /// The queue.
    Control,
    /// All stripes and the queue.
    Change,
}

fn kind_of(call: &Call) -> Kind
    ensures { result ≡ kind_of (call_data call.now) }
{
    match *call {
        Call::Get { .. } => Kind::Read,
        Call::Store { .. }
        | Call::Join { .. }
        | Call::Count { .. }
        | Call::Delete { .. }
        | Call::Touch { .. } => Kind::Write,
        Call::Observe { .. } | Call::Failovers | Call::GetState => Kind::Control,
        Call::SetState { .. } => Kind::Change,
    }
}

/// The stripe of a call's key.
fn stripe_for(call: &Call, stripes: u16) -> u16
    requires keyed { has_key (call_data call.now) ≡ true }
    requires some { 0 < stripes }
    ensures stripe { result ≡ stripe_of (key_in (call_data call.now)) stripes }
    ensures below { result < stripes }
{
    match *call {
        Call::Get { key }
        | Call::Store { key, .. }
        | Call::Join { key, .. }
        | Call::Count { key, .. }
        | Call::Delete { key, .. }
        | Call::Touch { key, .. } => stripe_of(key, stripes),
        Call::Observe { .. } | Call::Failovers | Call::SetState { .. } | Call::GetState => {
            unreachable!()
        }
    }
}

/// What is answered to a call, on a key of this stripe where it has one.
fn tried_as(stripe: u16, came: Result<Step, Busy>) -> Tried
    ensures { result ≡ tried_by stripe came }
{
    match came {
        Ok(Step::Done(reply)) => Tried::Done(reply),
        Ok(Step::Refused(cause)) => Tried::Done(Reply::refusal(cause.status())),
        Ok(Step::Fetch(ticket)) => Tried::Fetch(ticket),
        Ok(Step::FetchFull) => Tried::FetchFull { stripe },
        Err(busy) => Tried::Busy(busy),
    }
}

/// What is answered to a call on a key of this stripe. It passes the gate once more where that is a reply.
fn answered<G: Gate>(gate: &mut G, stripe: u16, came: Result<Step, Busy>) -> Tried
    ensures tried { result ≡ tried_by stripe came }
    ensures passed { G.passed gate.new ≡ answered_on stripe result (G.passed gate.old) }
{
    let tried = tried_as(stripe, came);
    if let Tried::Done(_) = tried {
        gate.pass(Point::Answered(stripe));
    }
    tried
}

/// Notes what a call came to, where that is an event.
fn note_step<S: Stage<Part = Part>>(
    stage: &mut S,
    call: &Call,
    now: u64,
    prior: Option<Ticket>,
    step: Step,
    value: &[u8],
)
    requires within { IsWithin (call_data call.now) }
    requires short { length value.now ≤ max_value }
    requires touched { (p : PartName) → touches_call (S.front stage.old).config (call_data call.now)
        p ≡ true → S.holds stage.old p ≡ true }
    requires may { IfSome (event_of (S.number stage.old) (call_data call.now) now prior step
        value.now) (May (S.front stage.old)) }
    requires legal { IsLegal (S.front stage.old) }
    requires room { HasRoom call_bytes (S.covers stage.old) }
    ensures stays { Stays S.lent S.fixed S.number S.is_desk S.is_telling stage.old stage.new }
    ensures went { Went (S.front stage.old) (S.front stage.new) (S.holds stage.old)
        (S.number stage.old) (S.is_desk stage.old) (event_of (S.number stage.old)
        (call_data call.now) now prior step value.now) }
    ensures room { LeavesRoom (S.covers stage.old) (S.covers stage.new)
        (event_of (S.number stage.old) (call_data call.now) now prior step value.now) }
    ensures held { Same (S.holds stage.new) (S.holds stage.old) }
    ensures losses { S.losses stage.new ≡ S.losses stage.old }
    ensures alone { S.is_telling stage.old ≡ true → S.front stage.new ≡ with_noted
        (S.front stage.old) (event_of (S.number stage.old) (call_data call.now) now prior step
        value.now) }
    ensures tells { S.is_telling stage.old ≡ true → (p : PartName) → S.tells stage.new p
        ≡ S.tells stage.old p }
{
    let caller = stage.caller();
    match step {
        Step::Done(reply) => stage.note(&Event::Called {
            caller,
            call: *call,
            now,
            reply,
            value,
        }),
        Step::Refused(cause) => stage.note(&Event::Refused {
            caller,
            call: *call,
            now,
            cause,
        }),
        Step::Fetch(ticket) => {
            if !is_prior(prior, ticket) {
                stage.note(&Event::Asked {
                    ticket,
                    caller,
                    call: *call,
                });
            }
        }
        Step::FetchFull => {}
    }
}

/// Tries a Get, which takes the stripe of its key alone.
pub(crate) fn try_get<S: Stage<Part = Part>, G: Gate>(
    stage: &mut S,
    stripe: u16,
    call: &Call,
    now: u64,
    prior: Option<Ticket>,
    value: &mut Out,
    gate: &mut G,
) -> Result<Step, Busy>
    requires get { call_data call.now ≡ Get (key_in (call_data call.now)) }
    requires key { IsKey (key_in (call_data call.now)) }
    requires stripe { stripe ≡ stripe_of (key_in (call_data call.now))
        (S.front stage.old).config.stripes }
    requires there { there (S.front stage.old).config (Stripe stripe) ≡ true }
    requires free { S.holds stage.old (Stripe stripe) ≡ false }
    requires room { HasRoom call_bytes (S.covers stage.old) }
    requires prior { PriorsStand (S.front stage.old) (S.number stage.old) (call_data call.now)
        prior }
    requires value { max_value ≤ value.old.spare + length value.old.bytes }
    ensures stays { Stays S.lent S.fixed S.number S.is_desk S.is_telling stage.old stage.new }
    ensures went { Went (S.front stage.old) (S.front stage.new) (S.holds stage.old)
        (S.number stage.old) (S.is_desk stage.old) (event_by (S.number stage.old)
        (call_data call.now) now prior value.new.bytes result) }
    ensures room { LeavesRoom (S.covers stage.old) (S.covers stage.new)
        (event_by (S.number stage.old) (call_data call.now) now prior value.new.bytes result) }
    ensures held { Same (S.holds stage.new) (S.holds stage.old) }
    ensures found { MatchResult result (λ _. S.losses stage.new ≡ S.losses stage.old)
        (λ b. (b.part ≡ Stripe stripe) × Rose (S.losses stage.old) (S.losses stage.new)) }
    ensures elsewhere { IfErr result (λ b. FoundElsewhere S.front S.holds S.lent S.fixed S.number
        S.is_desk S.is_telling S.elsewhere Read stripe stage.old b.part) }
    ensures gets { IfOk result (Gets (S.front stage.old) (S.front stage.new) (S.holds stage.old)
        (S.number stage.old) (S.is_desk stage.old) stripe prior (call_data call.now) now
        value.new.bytes) }
    ensures passed { G.passed gate.new ≡ passed_by stripe result (G.passed gate.old) }
    ensures alone { S.is_telling stage.old ≡ true → S.front stage.new ≡ with_noted
        (S.front stage.old) (event_by (S.number stage.old) (call_data call.now) now prior
        value.new.bytes result) }
    ensures becomes { S.is_telling stage.old ≡ true → MatchResult result (GetsFrom
        (S.front stage.old) stripe (S.tells stage.old (Stripe stripe))
        (S.tells stage.new (Stripe stripe)) prior (key_in (call_data call.now)) now value.new.bytes)
        (λ b. IsOut (S.front stage.old).config Read stripe b.part (S.tells stage.old)
        (S.tells stage.new)) }
    ensures kept { S.is_telling stage.old ≡ true → KeptBut (S.front stage.old).config
        (is_stripe stripe) (S.tells stage.old) (S.tells stage.new) }
    ensures bare { IfOk result (λ step. IsStepValue step value.new.bytes) }
    ensures short { IfOk result (λ _. length value.new.bytes ≤ max_value) }
    ensures same { IfErr result (λ _. value.new ≡ value.old) }
    ensures spare { value.new.spare + length value.new.bytes ≡ value.old.spare
        + length value.old.bytes }
{
    let mut part = match take_stripe(stage, stripe) {
        Ok(part) => part,
        Err(busy) => return Err(busy),
    };
    let step = read(&mut part, call, now, prior, value);
    gate.pass(Point::InStripe(stripe));
    note_step(stage, call, now, prior, step, value.bytes());
    stage.give(PartName::Stripe(stripe), Part::Stripe(part));
    Ok(step)
}

/// Tries a call on the vBucket as a whole, which takes the queue alone.
pub(crate) fn try_control<S: Stage<Part = Part>>(
    stage: &mut S,
    vb: u16,
    call: &Call,
    now: u64,
    value: &mut Out,
) -> Result<Step, Busy>
    requires control { is_control (call_data call.now) ≡ true }
    requires id { (S.front stage.old).id ≡ vb }
    requires free { S.holds stage.old Queue ≡ false }
    requires room { HasRoom call_bytes (S.covers stage.old) }
    requires value { max_value ≤ value.old.spare + length value.old.bytes }
    ensures stays { Stays S.lent S.fixed S.number S.is_desk S.is_telling stage.old stage.new }
    ensures went { Went (S.front stage.old) (S.front stage.new) (S.holds stage.old)
        (S.number stage.old) (S.is_desk stage.old) (event_by (S.number stage.old)
        (call_data call.now) now None value.new.bytes result) }
    ensures room { LeavesRoom (S.covers stage.old) (S.covers stage.new)
        (event_by (S.number stage.old) (call_data call.now) now None value.new.bytes result) }
    ensures held { Same (S.holds stage.new) (S.holds stage.old) }
    ensures found { MatchResult result (λ _. S.losses stage.new ≡ S.losses stage.old)
        (λ b. (b.part ≡ Queue) × Rose (S.losses stage.old) (S.losses stage.new)) }
    ensures elsewhere { IfErr result (λ b. FoundElsewhere S.front S.holds S.lent S.fixed S.number
        S.is_desk S.is_telling S.elsewhere Control 0 stage.old b.part) }
    ensures controls { IfOk result (Controls (S.front stage.old) (S.front stage.new)
        (S.holds stage.old) (S.number stage.old) (S.is_desk stage.old) vb (call_data call.now) now
        value.new.bytes) }
    ensures alone { S.is_telling stage.old ≡ true → S.front stage.new ≡ with_noted
        (S.front stage.old) (event_by (S.number stage.old) (call_data call.now) now None
        value.new.bytes result) }
    ensures becomes { S.is_telling stage.old ≡ true → MatchResult result (ControlsFrom
        (S.front stage.old) (S.tells stage.old Queue) (S.tells stage.new Queue) vb
        (call_data call.now) value.new.bytes) (λ b. IsOut (S.front stage.old).config Control 0
        b.part (S.tells stage.old) (S.tells stage.new)) }
    ensures kept { S.is_telling stage.old ≡ true → KeptBut (S.front stage.old).config is_queue
        (S.tells stage.old) (S.tells stage.new) }
    ensures bare { IfOk result (λ step. IsStepValue step value.new.bytes) }
    ensures short { IfOk result (λ _. length value.new.bytes ≤ max_value) }
    ensures same { IfErr result (λ _. value.new ≡ value.old) }
    ensures spare { value.new.spare + length value.new.bytes ≡ value.old.spare
        + length value.old.bytes }
{
    let mut queue = match take_queue(stage) {
        Ok(queue) => queue,
        Err(busy) => return Err(busy),
    };
    let step = control(&mut queue, call, vb, value);
    note_step(stage, call, now, None, step, value.bytes());
    stage.give(PartName::Queue, Part::Queue(queue));
    Ok(step)
}

/// Tries a call that may put a document, which takes the stripe of its key and then the queue. Where somebody else has the
/// queue it gives the stripe back as it was.
pub(crate) fn try_write<S: Stage<Part = Part>, G: Gate>(
    stage: &mut S,
    stripe: u16,
    call: &Call,
    now: u64,
    prior: Option<Ticket>,
    value: &mut Out,
    gate: &mut G,
) -> Result<Step, Busy>
    requires keyed { written_key (call_data call.now) ≡ Some (key_in (call_data call.now)) }
    requires within { IsWithin (call_data call.now) }
    requires moment { IsMoment now }
    requires stripe { stripe ≡ stripe_of (key_in (call_data call.now))
        (S.front stage.old).config.stripes }
    requires there { there (S.front stage.old).config (Stripe stripe) ≡ true }
    requires free { S.holds stage.old (Stripe stripe) ≡ false }
    requires free_queue { S.holds stage.old Queue ≡ false }
    requires room { HasRoom call_bytes (S.covers stage.old) }
    requires prior { PriorsStand (S.front stage.old) (S.number stage.old) (call_data call.now)
        prior }
    requires value { max_value ≤ value.old.spare + length value.old.bytes }
    ensures stays { Stays S.lent S.fixed S.number S.is_desk S.is_telling stage.old stage.new }
    ensures went { Went (S.front stage.old) (S.front stage.new) (S.holds stage.old)
        (S.number stage.old) (S.is_desk stage.old) (event_by (S.number stage.old)
        (call_data call.now) now prior value.new.bytes result) }
    ensures room { LeavesRoom (S.covers stage.old) (S.covers stage.new)
        (event_by (S.number stage.old) (call_data call.now) now prior value.new.bytes result) }
    ensures held { Same (S.holds stage.new) (S.holds stage.old) }
    ensures found { MatchResult result (λ _. S.losses stage.new ≡ S.losses stage.old)
        (λ b. ((is_stripe stripe b.part || is_queue b.part) ≡ true) × Rose (S.losses stage.old)
        (S.losses stage.new)) }
    ensures elsewhere { IfErr result (λ b. FoundElsewhere S.front S.holds S.lent S.fixed S.number
        S.is_desk S.is_telling S.elsewhere Write stripe stage.old b.part) }
    ensures writes { IfOk result (Writes (S.front stage.old) (S.front stage.new) (S.holds stage.old)
        (S.number stage.old) (S.is_desk stage.old) stripe prior (call_data call.now) now
        value.new.bytes) }
    ensures passed { G.passed gate.new ≡ passed_by stripe result (G.passed gate.old) }
    ensures alone { S.is_telling stage.old ≡ true → S.front stage.new ≡ with_noted
        (S.front stage.old) (event_by (S.number stage.old) (call_data call.now) now prior
        value.new.bytes result) }
    ensures becomes { S.is_telling stage.old ≡ true → MatchResult result (WritesFrom
        (S.front stage.old) stripe (S.tells stage.old (Stripe stripe))
        (S.tells stage.new (Stripe stripe)) (S.tells stage.old Queue) (S.tells stage.new Queue)
        prior (call_data call.now) now value.new.bytes) (λ b. IsOut (S.front stage.old).config Write
        stripe b.part (S.tells stage.old) (S.tells stage.new)) }
    ensures kept { S.is_telling stage.old ≡ true → KeptBut (S.front stage.old).config
        (λ p. is_stripe stripe p || is_queue p) (S.tells stage.old) (S.tells stage.new) }
    ensures bare { IfOk result (λ step. IsStepValue step value.new.bytes) }
    ensures short { IfOk result (λ _. length value.new.bytes ≤ max_value) }
    ensures same { IfErr result (λ _. value.new ≡ value.old) }
    ensures spare { value.new.spare + length value.new.bytes ≡ value.old.spare
        + length value.old.bytes }
{
    let mut part = match take_stripe(stage, stripe) {
        Ok(part) => part,
        Err(busy) => return Err(busy),
    };
    let mut queue = match take_queue(stage) {
        Ok(queue) => queue,
        Err(busy) => {
            stage.give(PartName::Stripe(stripe), Part::Stripe(part));
            return Err(busy);
        }
    };
    let step = write(&mut part, &mut queue, call, now, prior, value);
    gate.pass(Point::InStripe(stripe));
    note_step(stage, call, now, prior, step, value.bytes());
    stage.give(PartName::Queue, Part::Queue(queue));
    stage.give(PartName::Stripe(stripe), Part::Stripe(part));
    Ok(step)
}

/// Tries a call: it takes the parts that the call touches, the stripe before the queue, does the call, notes that it was
/// answered, refused or asked, and gives the parts back, whatever it answers. `prior` is the ticket at which this call has
/// asked before, if it has. One that waits on there, or can't wait, notes nothing. The value of the answer goes into `value`.
pub fn try_call<S: Stage<Part = Part>, G: Gate>(
    stage: &mut S,
    vb: u16,
    config: &Config,
    call: &Call,
    now: u64,
    prior: Option<Ticket>,
    value: &mut Out,
    gate: &mut G,
) -> Tried
    requires id { (S.front stage.old).id ≡ vb }
    requires config { config.now ≡ (S.front stage.old).config }
    requires some { 0 < config.now.stripes }
    requires given { kind_of (call_data call.now) ≡ Change → ⊥ }
    requires within { IsWithin (call_data call.now) }
    requires moment { IsMoment now }
    requires free { (p : PartName) → touches_call (S.front stage.old).config (call_data call.now) p
        ≡ true → S.holds stage.old p ≡ false }
    requires room { HasRoom call_bytes (S.covers stage.old) }
    requires prior { PriorsStand (S.front stage.old) (S.number stage.old) (call_data call.now)
        prior }
    requires value { max_value ≤ value.old.spare + length value.old.bytes }
    ensures stays { Stays S.lent S.fixed S.number S.is_desk S.is_telling stage.old stage.new }
    ensures held { Same (S.holds stage.new) (S.holds stage.old) }
    ensures tries { Tries S.front S.holds S.lent S.fixed S.number S.is_desk S.is_telling S.covers
        S.losses S.elsewhere S.tells stage.old stage.new prior (call_data call.now) now
        value.new.bytes result }
    ensures passed { G.passed gate.new ≡ passed_on (has_key (call_data call.now))
        (stripe_of (key_in (call_data call.now)) config.now.stripes) result (G.passed gate.old) }
    ensures same { IfBusy result (value.new ≡ value.old) }
    ensures spare { value.new.spare + length value.new.bytes ≡ value.old.spare
        + length value.old.bytes }
{
    match kind_of(call) {
        Kind::Read => {
            let stripe = stripe_for(call, config.stripes);
            let came = try_get(stage, stripe, call, now, prior, value, gate);
            answered(gate, stripe, came)
        }
        Kind::Write => {
            let stripe = stripe_for(call, config.stripes);
            let came = try_write(stage, stripe, call, now, prior, value, gate);
            answered(gate, stripe, came)
        }
        Kind::Control => tried_as(0, try_control(stage, vb, call, now, value)),
        Kind::Change => unreachable!(),
    }
}
