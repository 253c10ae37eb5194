// The arithmetic of whole numbers: exact results, or a fault where there is none in range.
ghost use Rattle.std.specs.Prelude.{◌≡◌, ℤ, FitsSigned};
ghost use Rattle.std.specs.Int.{w32};
ghost use Rattle.arithmetic.specs.WholeMeaning.{exact, whole_meaning};
ghost use Rattle.std.specs.Option.{SomeIff};
ghost use Rattle.arithmetic.specs.Wholes.{reads_back};
ghost use Rattle.std.proofs.Common.{rules};

use crate::arithmetic_trait::Arithmetic;
use crate::whole::Whole;
use records::Fault;
use std::num::NonZeroI32;

/// The arithmetic of whole numbers.
#[derive(Clone, Copy, Debug)]
pub struct WholeNumbers;

// The answer for an exact result, from what a checked operation found of it.
fn in_range(found: Option<i32>) -> Result<Whole, Fault>
    ensures { (z : ℤ) → SomeIff found (FitsSigned w32 z) z → result ≡ exact z }
{
    found.map(Whole::from).ok_or(Fault::OUT_OF_RANGE)
}

impl Arithmetic for WholeNumbers {
    type Value = Whole;

    ghost meaning = { whole_meaning };

    ghost reads_back = { reads_back };

    ghost fits_a_word = { Prim.search rules };

    fn pack(&self, value: Whole) -> u64 {
        u64::from(value.number.cast_unsigned())
    }

    fn unpack(&self, word: u64) -> Whole {
        let [a, b, c, d, ..] = word.to_le_bytes();
        Whole::from(i32::from_le_bytes([a, b, c, d]))
    }

    fn literal(&self, argument: i32) -> Result<Whole, Fault> {
        Ok(Whole::from(argument))
    }

    fn negate(&self, value: Whole) -> Result<Whole, Fault> {
        in_range(value.number.checked_neg())
    }

    fn add(&self, left: Whole, right: Whole) -> Result<Whole, Fault> {
        in_range(left.number.checked_add(right.number))
    }

    fn subtract(&self, left: Whole, right: Whole) -> Result<Whole, Fault> {
        in_range(left.number.checked_sub(right.number))
    }

    fn multiply(&self, left: Whole, right: Whole) -> Result<Whole, Fault> {
        in_range(left.number.checked_mul(right.number))
    }

    #[tactic(auto, using(crate::proofs::Faults::division))]
    fn divide(&self, left: Whole, right: Whole) -> Result<Whole, Fault> {
        let divisor = NonZeroI32::new(right.number).ok_or(Fault::DIVISOR_ZERO)?;
        in_range(left.number.checked_div(divisor.get()))
    }
}
