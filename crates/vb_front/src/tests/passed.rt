// A gate that counts how often its points are passed.
ghost use Rattle.std.specs.Prelude.{◌≡◌};

use ep_edge::{Gate, Point};

/// How often the points of the stripe 0 were passed, and those of any other.
#[derive(Clone, Copy, Debug, PartialEq, Eq, Drop)]
pub struct Passed {
    pub in_stripe: u32,
    pub answered: u32,
    pub elsewhere: u32,
}

impl Passed {
    pub fn none() -> Passed {
        Passed {
            in_stripe: 0,
            answered: 0,
            elsewhere: 0,
        }
    }
}

impl Gate for Passed {
    ghost use Rattle.std.specs.Prelude.{None};

    ghost passed = { λ _. None };

    fn pass(&mut self, point: Point) {
        let count = match point {
            Point::InStripe(0) => &mut self.in_stripe,
            Point::Answered(0) => &mut self.answered,
            Point::InStripe(_) | Point::Answered(_) => &mut self.elsewhere,
        };
        *count = count.wrapping_add(1);
    }
}
