// Where a call of a client may be stopped by whoever watches it.
ghost use Rattle.std.specs.Prelude.{◌≡◌, ◌∷◌, ◌++◌, List, [], Option, None};
ghost use Rattle.std.specs.Option.{option_map};
ghost use Rattle.ep_edge.specs.declared.gate.Point.{Point};

/// A place in a call on a key, with the key's stripe.
#[derive(Clone, Copy, Debug, PartialEq, Eq)]
pub enum Point {
    /// It holds all its parts and has done its work, and nothing is noted yet.
    InStripe(u16),
    /// It was answered, and has given its parts back.
    Answered(u16),
}

/// What calls pass on their way. A gate may keep a call waiting at a point, and changes nothing of it.
pub trait Gate {
    /// The points that were passed, in order, where the gate tells them.
    ghost passed: { Self → Option (List Point) };

    fn pass(&mut self, point: Point)
        ensures { passed self.new ≡ option_map (λ points. points ++ point ∷ []) (passed self.old) };
}

/// A gate that is always open. It tells nothing.
#[derive(Clone, Copy, Debug, Drop)]
pub struct OpenGate;

impl Gate for OpenGate {
    ghost use Rattle.std.specs.Prelude.{None};

    ghost passed = { λ _. None };

    fn pass(&mut self, _point: Point) {}
}
