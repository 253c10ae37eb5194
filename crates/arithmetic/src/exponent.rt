// The exponent of one unit in a dimension: -64 to 63.
ghost use Rattle.std.specs.Prelude.{◌≡◌, ◌+ℤ◌, ◌-ℤ◌, true};
ghost use Rattle.arithmetic.specs.Ranges.{is_exponent};

use records::Fault;

/// A power that a unit is raised to. `Default` is by hand, since a ghost field has no derive of it.
#[derive(Clone, Copy, Debug, PartialEq, Eq)]
pub struct Exponent {
    pub(crate) power: i8,
    ghost within: { is_exponent power ≡ true },
}

impl Default for Exponent {
    ghost use Rattle.arithmetic.specs.DimensionMeaning.{zero_exponent};

    ghost is_default = { λ exponent. exponent ≡ zero_exponent };

    fn default() -> Exponent {
        Exponent { power: 0 }
    }
}

impl From<Exponent> for i8 {
    ghost use Rattle.arithmetic.specs.DimensionMeaning.{power_of};

    ghost from_gives = { λ exponent power. power ≡ power_of exponent };

    fn from(exponent: Exponent) -> i8 {
        exponent.power
    }
}

impl Exponent {
    ghost use Rattle.arithmetic.specs.DimensionMeaning.{exact_exponent, exponent_of, nearest};

    /// The ends of the range.
    pub const LOWEST: i8 = -64;

    pub const HIGHEST: i8 = 63;

    /// The exponent of this power, if it is in range.
    pub fn new(power: i8) -> Option<Exponent>
        ensures { result ≡ exponent_of power }
    {
        if power < Exponent::LOWEST || Exponent::HIGHEST < power {
            return None;
        }
        Some(Exponent { power })
    }

    /// The exponent of this power; out of range, the end of the range that is nearest.
    pub fn nearest(power: i8) -> Exponent
        ensures { result ≡ nearest power }
    {
        Exponent {
            power: power.clamp(Exponent::LOWEST, Exponent::HIGHEST),
        }
    }

    // The sum, or the fault where it is out of range.
    pub(crate) fn plus(self, other: Exponent) -> Result<Exponent, Fault>
        ensures { result ≡ exact_exponent (self.power +ℤ other.power) }
    {
        Exponent::new(self.power + other.power).ok_or(Fault::OUT_OF_RANGE)
    }

    // The difference, likewise.
    pub(crate) fn minus(self, other: Exponent) -> Result<Exponent, Fault>
        ensures { result ≡ exact_exponent (self.power -ℤ other.power) }
    {
        Exponent::new(self.power - other.power).ok_or(Fault::OUT_OF_RANGE)
    }
}
