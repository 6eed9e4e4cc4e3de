// What time it is.
ghost use Rattle.std.specs.Prelude.{◌≡◌, ◌+◌, ℕ, Option, IfSome};
ghost use Rattle.ep_model.specs.Limits.{IsMoment};

/// What time it is. Two moments may be the same, and a later one may lie before an earlier.
pub trait Clock: Drop {
    /// The moment that the k-th next call gives, counted from 0, where the clock tells it.
    ghost moment: { Self → ℕ → Option ℕ };

    /// Nanoseconds since 1970.
    fn now(&mut self) -> u64
        ensures bound { IsMoment result }
        ensures told { IfSome (moment self.old 0) (λ m. result ≡ m) }
        ensures next { (k : ℕ) → moment self.new k ≡ moment self.old (k + 1) };
}
