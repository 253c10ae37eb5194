// The fault of an arithmetic: a number from 1 to 255.
ghost use Rattle.std.specs.Prelude.{◌≡◌, ◌≤◌, MatchOption};

use std::error::Error;
use std::fmt;

/// Why an arithmetic has no result.
#[derive(Clone, Copy, Debug, PartialEq, Eq)]
pub struct Fault {
    number: u8,
    ghost from_one: { 1 ≤ number },
    ghost to_255: { number ≤ 255 },
}

impl Fault {
    ghost use Rattle.records.specs.Faults.{number_of};

    /// A result out of the range of the values.
    pub const OUT_OF_RANGE: Fault = Fault { number: 1 };

    /// A division by zero.
    pub const DIVISOR_ZERO: Fault = Fault { number: 2 };

    /// A sum or a difference of values of two dimensions.
    pub const DIFFERENT_DIMENSIONS: Fault = Fault { number: 3 };

    /// The fault of this number; 0 is none.
    pub fn new(number: u8) -> Option<Fault>
        ensures by_number { MatchOption result (number ≡ 0) (λ fault. number_of fault ≡ number) }
    {
        if number == 0 {
            return None;
        }
        Some(Fault { number })
    }

    /// Its number, 1 to 255.
    pub fn number(&self) -> u8
        ensures value { result ≡ number_of self.now }
        ensures from_one { 1 ≤ result }
    {
        self.number
    }
}

impl fmt::Display for Fault {
    ghost use Rattle.std.specs.Prelude.{Some, ◌++◌, codes, decimal};
    ghost use Rattle.records.specs.Faults.{number_of};

    ghost output = { λ fault. Some (codes "fault " ++ decimal (number_of fault)) };

    fn fmt<W: fmt::Write>(&self, f: &mut fmt::Formatter<W>) -> fmt::Result {
        write!(f, "fault {}", self.number)
    }
}

impl Error for Fault {}
