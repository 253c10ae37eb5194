// Where a record puts its word.
ghost use Rattle.std.specs.Prelude.{◌≡◌};

use crate::places::{Places, all_zero};

// Byte 1 of a record that puts at the rear.
pub(crate) const REAR: u8 = 255;

/// At the first place after the full ones, or at these places, counted after the operands are passed. The rear is a place of
/// its own and not the want of places, so this is no `Option`.
#[derive(Clone, Copy, Debug)]
pub enum Target {
    Rear,
    At(Places),
}

impl Target {
    ghost use Rattle.code.specs.Layout.{count_byte, is_rear, place_fields, target_of};

    /// What a record's count byte and place fields say: 255 is the rear, and has no places.
    pub fn new(count: u8, fields: [u16; 4]) -> Option<Target>
        ensures { result ≡ target_of count fields }
    {
        if count == REAR {
            all_zero(&fields).then_some(Target::Rear)
        } else {
            Places::new(count, fields).map(Target::At)
        }
    }

    /// Whether the record puts at the rear.
    pub fn is_rear(&self) -> bool
        ensures { result ≡ is_rear self.now }
    {
        matches!(self, Target::Rear)
    }

    /// Byte 1 of the record.
    pub fn count_byte(&self) -> u8
        ensures { result ≡ count_byte self.now }
    {
        match self {
            Target::Rear => REAR,
            Target::At(places) => places.count,
        }
    }

    /// The four place fields of the record.
    pub fn fields(&self) -> [u16; 4]
        ensures { result ≡ place_fields self.now }
    {
        match self {
            Target::Rear => [0, 0, 0, 0],
            Target::At(places) => places.fields,
        }
    }
}
