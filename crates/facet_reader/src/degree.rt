//! Degrees, indices, and the k of Sq^k.
ghost use Rattle.std.specs.Prelude.{◌≡◌, ◌≤◌};

use std::marker::Model;

/// A degree, an index or the k of Sq^k as a line names it: a number from 0 to 99. A contract sees the number.
#[derive(Debug, Drop, Clone, Copy, PartialEq, Eq)]
pub struct Degree {
    number: u8,
}

impl Model for Degree {
    ghost use Rattle.std.specs.Prelude.{ℕ, ◌≤◌};

    ghost Value = { ℕ };

    ghost view = { λ d. d.number };

    ghost invariant = { λ d. d.number ≤ 99 };

    ghost inverse = { λ n. record { number = n } };
}

impl Degree {
    /// The degree of this number.
    pub(crate) fn of(number: u32) -> Degree
        requires { number ≤ 99 }
        ensures { result ≡ number }
    {
        Degree {
            number: number as u8,
        }
    }

    /// The number. Costs nothing.
    #[inline]
    pub fn get(self) -> u8
        ensures value { result ≡ self }
        ensures small { result ≤ 99 }
    {
        self.number
    }
}
