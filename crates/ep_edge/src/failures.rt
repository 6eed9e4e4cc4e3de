// Which calls of a form in memory fail.
ghost use Rattle.std.specs.Prelude.{◌≡◌};
ghost use Rattle.ep_edge.specs.Memory.{none_made, is_failing, after_call};

use std::marker::Model;

/// One more than the greatest number that a call can be listed by.
const LIMIT: u128 = 1 << 64;

/// Which calls fail, by their numbers.
#[derive(Drop)]
pub(crate) struct Failures {
    numbers: Vec<u64>,
    next: u128,
}

impl Model for Failures {
    ghost use Rattle.std.specs.Prelude.{◌≤◌, ◌^◌};
    ghost use Rattle.ep_edge.specs.declared.data.FailuresData.{FailuresData};

    ghost Value = { FailuresData };

    ghost view = { λ f. record { numbers = f.numbers.items; next = f.next } };

    ghost invariant = { λ f. f.next ≤ 2 ^ 64 };
}

impl Failures {
    /// The calls with these numbers fail, counted from 0.
    pub(crate) fn new(numbers: Vec<u64>) -> Failures
        ensures { result ≡ none_made numbers.items }
    {
        Failures { numbers, next: 0 }
    }

    /// Counts a call, and answers whether it fails. Its cost is linear in the number of calls that fail.
    pub(crate) fn next_fails(&mut self) -> bool
        ensures answer { result ≡ is_failing self.old }
        ensures after { self.new ≡ after_call self.old }
    {
        let next = self.next;
        let fails = self
            .numbers
            .iter()
            .any(|number| u128::from(*number) == next);
        self.next = (next + 1).min(LIMIT);
        fails
    }
}
