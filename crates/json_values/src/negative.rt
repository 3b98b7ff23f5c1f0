ghost use Rattle.std.specs.Prelude.{◌≡◌, ◌<ℤ◌, pos, Some, None, if◌then◌else◌, int_lt};

use std::marker::Model;

/// A whole number below 0, seen by contracts as that number.
#[derive(Debug, Clone, Copy, PartialEq, Eq, PartialOrd, Ord)]
pub struct Negative {
    number: i64,
}

impl Model for Negative {
    ghost use Rattle.std.specs.Prelude.{ℤ, ◌<ℤ◌, pos};

    ghost Value = { ℤ };

    ghost view = { λ n. n.number };

    ghost invariant = { λ n. n.number <ℤ pos 0 };

    ghost inverse = { λ z. record { number = z } };
}

impl Negative {
    /// The number, where it is below 0.
    pub fn new(number: i64) -> Option<Negative>
        ensures { result ≡ (if int_lt number (pos 0) then Some number else None) }
    {
        if number < 0 {
            Some(Negative { number })
        } else {
            None
        }
    }

    /// The number, which is below 0.
    pub fn get(self) -> i64
        ensures value { result ≡ self }
        ensures below_zero { self <ℤ pos 0 }
    {
        self.number
    }
}
