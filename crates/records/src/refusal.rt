// A refusal: why, and at which byte, node, record or place.
ghost use Rattle.std.specs.Prelude.{◌≡◌, Some};
ghost use Rattle.records.specs.Refusals.{refusal_text};

use crate::reason::Reason;
use std::error::Error;
use std::fmt;

/// What is refused, and at which byte, node, record or place.
#[derive(Clone, Copy, Debug, PartialEq, Eq)]
pub struct Refusal {
    pub reason: Reason,
    pub place: usize,
}

impl Reason {
    /// The refusal for this reason at a place.
    pub fn at(self, place: usize) -> Refusal
        ensures { result ≡ record { reason = self; place = place } }
    {
        Refusal {
            reason: self,
            place,
        }
    }
}

impl fmt::Display for Refusal {
    ghost output = { λ r. Some (refusal_text r) };

    fn fmt<W: fmt::Write>(&self, f: &mut fmt::Formatter<W>) -> fmt::Result {
        let number = self.reason.number();
        let place = self.place;
        match self.reason.fault() {
            None => write!(f, "refused {number} at {place}"),
            Some(fault) => write!(f, "refused {number} at {place} with {fault}"),
        }
    }
}

impl Error for Refusal {}
