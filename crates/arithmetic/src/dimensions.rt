// The arithmetic of dimensions: exponents are added and subtracted, and sums ask for one dimension.
ghost use Rattle.std.specs.Prelude.{◌≡◌};
ghost use Rattle.arithmetic.specs.DimensionMeaning.{common_dimension, dimension_meaning};
ghost use Rattle.arithmetic.specs.Exponents.{reads_back};
ghost use Rattle.std.proofs.Common.{rules};

use crate::arithmetic_trait::Arithmetic;
use crate::dimension::Dimension;
use crate::exponent::Exponent;
use records::Fault;

/// The arithmetic of dimensions.
#[derive(Clone, Copy, Debug)]
pub struct Dimensions;

// The dimension of both operands, where they have the same.
fn common(left: Dimension, right: Dimension) -> Result<Dimension, Fault>
    ensures { result ≡ common_dimension left right }
{
    if left == right {
        Ok(left)
    } else {
        Err(Fault::DIFFERENT_DIMENSIONS)
    }
}

impl Arithmetic for Dimensions {
    type Value = Dimension;

    ghost meaning = { dimension_meaning };

    ghost reads_back = { reads_back };

    ghost fits_a_word = { Prim.search rules };

    fn pack(&self, value: Dimension) -> u64 {
        let seconds = value.seconds.power.cast_unsigned();
        let volts = value.volts.power.cast_unsigned();
        u64::from(u16::from_le_bytes([seconds, volts]))
    }

    fn unpack(&self, word: u64) -> Dimension {
        let [seconds, volts, ..] = word.to_le_bytes();
        Dimension {
            seconds: Exponent::nearest(seconds.cast_signed()),
            volts: Exponent::nearest(volts.cast_signed()),
        }
    }

    fn literal(&self, _argument: i32) -> Result<Dimension, Fault> {
        Ok(Dimension::default())
    }

    fn negate(&self, value: Dimension) -> Result<Dimension, Fault> {
        Ok(value)
    }

    fn add(&self, left: Dimension, right: Dimension) -> Result<Dimension, Fault> {
        common(left, right)
    }

    fn subtract(&self, left: Dimension, right: Dimension) -> Result<Dimension, Fault> {
        common(left, right)
    }

    fn multiply(&self, left: Dimension, right: Dimension) -> Result<Dimension, Fault> {
        Ok(Dimension {
            seconds: left.seconds.plus(right.seconds)?,
            volts: left.volts.plus(right.volts)?,
        })
    }

    fn divide(&self, left: Dimension, right: Dimension) -> Result<Dimension, Fault> {
        Ok(Dimension {
            seconds: left.seconds.minus(right.seconds)?,
            volts: left.volts.minus(right.volts)?,
        })
    }
}
