// Where bytes come from.
ghost use Rattle.std.specs.Prelude.{◌≡◌, ◌<◌, ◌≤◌, ◌||◌, ℕ, List, Bool, Option, true, length};
ghost use Rattle.ep_edge.specs.Edge.{TakesBytes, IsEmptied, bytes_read, is_end, read_faults};

/// What a read gave.
#[derive(Clone, Copy, Debug, PartialEq, Eq)]
pub enum Got {
    /// So many bytes, at the front of the buffer.
    Bytes(usize),
    End,
    Failed,
}

/// Where bytes come from.
pub trait Source: Drop {
    /// The bytes that are still to come, where the source tells them.
    ghost left: { Self → Option (List ℕ) };

    /// Whether it has answered `End`.
    ghost has_ended: { Self → Bool };

    /// How often it has failed. A count that stands at 2^64 - 1 stays there.
    ghost faults: { Self → ℕ };

    /// The bytes that were still to come as its last read began, where the source tells them.
    ghost left_before: { Self → Option (List ℕ) };

    /// Whether it had answered `End` as its last read began: whether that was a read behind the end.
    ghost ended_before: { Self → Bool };

    /// Reads at least one byte and at most as many as the buffer holds. After `End` it gives no byte any more,
    /// and a failed read takes none.
    fn read(&mut self, into: &mut [u8]) -> Got
        requires { 0 < length into.old }
        ensures count { (n : ℕ) → result ≡ Got.Bytes n → (0 < n) × (n ≤ length into.new) }
        ensures takes { TakesBytes (left self.old) (left self.new) (bytes_read result into.new) }
        ensures ended { has_ended self.new ≡ (has_ended self.old || is_end result) }
        ensures end { result ≡ Got.End → IsEmptied (left self.new) }
        ensures after_end { (n : ℕ) → has_ended self.old ≡ true → result ≡ Got.Bytes n → ⊥ }
        ensures faults { faults self.new ≡ read_faults result (faults self.old) }
        ensures before { left_before self.new ≡ left self.old }
        ensures behind { ended_before self.new ≡ has_ended self.old };
}
