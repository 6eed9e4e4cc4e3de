// The trait of whoever takes parts and notes events.
ghost use Rattle.std.specs.Prelude.{◌≡◌, ◌+◌, ℕ, Bool, true, false, if◌then◌else◌, Option, Some, None, IfErr, MatchResult};
ghost use Rattle.std.specs.Borrow.{GName};
ghost use Rattle.ep_model.specs.declared.data.FrontData.{FrontData};
ghost use Rattle.ep_model.specs.declared.data.StartData.{StartData};
ghost use Rattle.ep_model.specs.declared.data.EventData.{EventData};
ghost use Rattle.ep_model.specs.declared.event.PartName.{PartName};
ghost use Rattle.ep_model.specs.History.{event_data};
ghost use Rattle.ep_model.specs.Front.{with_event, with_start, empty_start};
ghost use Rattle.ep_model.specs.Legal.{May, IsLegal};
ghost use Rattle.hold_stage.specs.Touches.{there, same_part, touches, bytes_of};
ghost use Rattle.hold_stage.specs.Stays.{Stays};
ghost use Rattle.ep_model.specs.Counts.{Rose};
ghost use Rattle.hold_stage.specs.Grows.{Same, and_this, but_this, Covered, Grown, Keeps, Noted, Begun, IsOwn};

use ep_model::{Busy, Event, PartName};
use std::marker::Brand;

/// What a part is to a history. An event that doesn't touch the part leaves that it stands.
pub trait Stands {
    ghost stands: { PartName → FrontData → Self → Type 0 };

    ghost keeps: { (p : PartName) (f : FrontData) (event : EventData) (x : Self) → IsLegal f
        → May f event → touches f event p ≡ false → stands p f x
        → stands p (with_event f event) x };
}

/// Names a start, for proofs alone.
pub trait Beginning {
    ghost start: { StartData };
}

impl Beginning for Brand {
    ghost start = { empty_start };
}

/// Who takes parts of one vBucket, gives them back and notes events. What it knows of the history is its front,
/// which each call may lengthen by what others noted meanwhile.
pub trait Stage {
    type Part: Stands + Drop;

    /// What no call changes, for proofs alone.
    type Fixed;

    /// What is known of the history.
    ghost front: { Self → FrontData };

    /// Which parts are held.
    ghost holds: { Self → PartName → Bool };

    /// Whether it alone notes what the store did.
    ghost is_desk: { Self → Bool };

    /// Its caller's number.
    ghost number: { Self → ℕ };

    /// There is room for so many events with so many bytes of keys and values.
    ghost covers: { Self → ℕ → ℕ → Type 0 };

    /// How often it found a part taken by somebody else.
    ghost losses: { Self → ℕ };

    /// That somebody else has a part, as far as a stage can say so.
    ghost elsewhere: { Self → PartName → Type 0 };

    /// Whether it tells where the parts are, and which parts are where. While it does, nobody else takes a part or
    /// notes an event between two of its calls.
    ghost is_telling: { Self → Bool };

    ghost tells: { Self → PartName → Option Self.Part };

    /// The reference through which its changes land.
    ghost lent: { Self → GName };

    ghost fixed: { Self → Self.Fixed };

    fn caller(&self) -> u64
        ensures { result ≡ number self.now };

    /// Takes a part out. It is busy only where it found the part with somebody else.
    fn take(&mut self, part: PartName) -> Result<Self::Part, Busy>
        requires there { there (front self.old).config part ≡ true }
        requires free { holds self.old part ≡ false }
        ensures stays { Stays lent fixed number is_desk is_telling self.old self.new }
        ensures room { (n b : ℕ) → covers self.old n b → covers self.new n b }
        ensures grown { Grown (front self.old) (front self.new) (holds self.old) (number self.old)
            (is_desk self.old) }
        ensures legal { IsLegal (front self.new) }
        ensures kept { Keeps Self.Part.stands (holds self.old) (front self.old) (front self.new) }
        ensures taken { MatchResult result (λ x. Self.Part.stands part (front self.new) x
            × (losses self.new ≡ losses self.old))
            (λ b. (b.part ≡ part) × Rose (losses self.old) (losses self.new)) }
        ensures held { MatchResult result (λ _. Same (holds self.new)
            (and_this part (holds self.old))) (λ _. Same (holds self.new) (holds self.old)) }
        ensures elsewhere { IfErr result (λ _. elsewhere self.old part) }
        ensures alone { is_telling self.old ≡ true → front self.new ≡ front self.old }
        ensures was_there { is_telling self.old ≡ true → MatchResult result
            (λ x. tells self.old part ≡ Some x) (λ _. tells self.old part ≡ None) }
        ensures tells { is_telling self.old ≡ true → (p : PartName)
            → there (front self.old).config p ≡ true → tells self.new p ≡
            (if same_part part p then None else tells self.old p) };

    /// Notes an event, which then stands last. Every part that it touches is held, it may happen behind the front,
    /// and there is room for it.
    fn note(&mut self, event: &Event)
        requires covered { Covered (holds self.old) (front self.old) (event_data event.now) }
        requires may { May (front self.old) (event_data event.now) }
        requires own { IsOwn (number self.old) (is_desk self.old) (event_data event.now) }
        requires room { covers self.old 1 (bytes_of (event_data event.now)) }
        ensures stays { Stays lent fixed number is_desk is_telling self.old self.new }
        ensures room { (n b : ℕ) → covers self.old (n + 1) (b + bytes_of (event_data event.now))
            → covers self.new n b }
        ensures noted { Noted Self.Part.stands (front self.old) (front self.new) (holds self.old)
            (number self.old) (is_desk self.old) (event_data event.now) }
        ensures legal { IsLegal (front self.new) }
        ensures held { Same (holds self.new) (holds self.old) }
        ensures losses { losses self.new ≡ losses self.old }
        ensures alone { is_telling self.old ≡ true → front self.new
            ≡ with_event (front self.old) (event_data event.now) }
        ensures tells { is_telling self.old ≡ true → (p : PartName)
            → tells self.new p ≡ tells self.old p };

    /// Lets the front grow by what others noted. How much it learns no clause says.
    fn look(&mut self)
        ensures stays { Stays lent fixed number is_desk is_telling self.old self.new }
        ensures room { (n b : ℕ) → covers self.old n b → covers self.new n b }
        ensures grown { Grown (front self.old) (front self.new) (holds self.old) (number self.old)
            (is_desk self.old) }
        ensures legal { IsLegal (front self.new) }
        ensures kept { Keeps Self.Part.stands (holds self.old) (front self.old) (front self.new) }
        ensures held { Same (holds self.new) (holds self.old) }
        ensures losses { losses self.new ≡ losses self.old }
        ensures alone { is_telling self.old ≡ true → front self.new ≡ front self.old }
        ensures tells { is_telling self.old ≡ true → (p : PartName)
            → tells self.new p ≡ tells self.old p };

    /// Puts the start, while every part is held.
    fn begin<B: Beginning>(&mut self)
        requires none { (front self.old).start ≡ None }
        requires desk { is_desk self.old ≡ true }
        requires all { (p : PartName) → there (front self.old).config p ≡ true → holds self.old p
            ≡ true }
        ensures stays { Stays lent fixed number is_desk is_telling self.old self.new }
        ensures room { (n b : ℕ) → covers self.old n b → covers self.new n b }
        ensures begun { Begun (front self.old) (front self.new) (holds self.old) (number self.old)
            B.start }
        ensures legal { IsLegal (front self.new) }
        ensures held { Same (holds self.new) (holds self.old) }
        ensures losses { losses self.new ≡ losses self.old }
        ensures alone { is_telling self.old ≡ true → front self.new
            ≡ with_start (front self.old) (Some B.start) }
        ensures tells { is_telling self.old ≡ true → (p : PartName)
            → tells self.new p ≡ tells self.old p };

    /// Gives a part back, which stands for the front.
    fn give(&mut self, part: PartName, value: Self::Part)
        requires held { holds self.old part ≡ true }
        requires stands { Self.Part.stands part (front self.old) value }
        ensures stays { Stays lent fixed number is_desk is_telling self.old self.new }
        ensures room { (n b : ℕ) → covers self.old n b → covers self.new n b }
        ensures front { front self.new ≡ front self.old }
        ensures held { Same (holds self.new) (but_this part (holds self.old)) }
        ensures losses { losses self.new ≡ losses self.old }
        ensures tells { is_telling self.old ≡ true → (p : PartName)
            → there (front self.old).config p ≡ true → tells self.new p ≡
            (if same_part part p then Some value else tells self.old p) };
}
