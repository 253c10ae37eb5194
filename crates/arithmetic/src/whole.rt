// A whole number: -2,147,483,648 to 2,147,483,647.
ghost use Rattle.std.specs.Prelude.{◌≡◌, true};
ghost use Rattle.arithmetic.specs.Ranges.{is_whole};

/// A number of 32 bits.
#[derive(Clone, Copy, Debug, PartialEq, Eq)]
pub struct Whole {
    pub(crate) number: i32,
    ghost within: { is_whole number ≡ true },
}

impl From<i32> for Whole {
    ghost use Rattle.arithmetic.specs.WholeMeaning.{number_of};

    ghost from_gives = { λ number whole. number_of whole ≡ number };

    fn from(number: i32) -> Whole {
        Whole { number }
    }
}

impl From<Whole> for i32 {
    ghost use Rattle.arithmetic.specs.WholeMeaning.{number_of};

    ghost from_gives = { λ whole number. number ≡ number_of whole };

    fn from(whole: Whole) -> i32 {
        whole.number
    }
}
