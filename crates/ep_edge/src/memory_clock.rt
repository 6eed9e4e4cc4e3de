// A clock in memory.
ghost use Rattle.std.specs.Prelude.{◌≡◌, ◌<◌, ◌^◌, ◌+◌, ℕ, All, IfSome};
ghost use Rattle.ep_model.specs.Limits.{IsMoment};
ghost use Rattle.ep_edge.specs.Memory.{moment_at, later};

use crate::Clock;
use std::marker::Model;

/// A clock that gives a list of moments in order, and then the last of them again and again.
#[derive(Drop)]
pub struct MemoryClock {
    moments: Vec<u64>,
    /// The place of the next moment.
    at: usize,
}

impl Model for MemoryClock {
    ghost use Rattle.std.specs.Prelude.{◌≤◌, ◌<◌, ◌-◌, ◌^◌, All, drop, length};
    ghost use Rattle.ep_model.specs.Limits.{IsMoment};
    ghost use Rattle.ep_edge.specs.declared.data.ClockData.{ClockData};

    ghost Value = { ClockData };

    ghost view = { λ c. record { moments = drop c.at c.moments.items } };

    ghost invariant = { λ c. (c.at ≤ length c.moments.items - 1)
        × All IsMoment c.moments.items };
}

impl MemoryClock {
    /// A clock that gives these moments, in nanoseconds since 1970. Without a moment it gives 0.
    pub fn new(moments: Vec<u64>) -> MemoryClock
        requires { All IsMoment moments.items }
        ensures { result ≡ record { moments = moments.items } }
    {
        MemoryClock { moments, at: 0 }
    }
}

impl Clock for MemoryClock {
    ghost use Rattle.std.specs.Prelude.{Some};
    ghost use Rattle.ep_edge.specs.Memory.{moment_at};

    ghost moment = { λ c k. Some (moment_at c.moments k) };

    /// Its cost is constant.
    fn now(&mut self) -> u64
        ensures bound { IsMoment result }
        ensures told { IfSome (Some (moment_at self.old.moments 0)) (λ m. result ≡ m) }
        ensures next { (k : ℕ) →
            Some (moment_at self.new.moments k) ≡ Some (moment_at self.old.moments (k + 1)) }
        ensures answer { result ≡ moment_at self.old.moments 0 }
        ensures after { self.new ≡ record { moments = later self.old.moments } }
    {
        let Some(moment) = self.moments.get(self.at).copied() else {
            return 0;
        };
        if self.at + 1 < self.moments.len() {
            self.at += 1;
        }
        moment
    }
}
