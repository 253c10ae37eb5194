// What every arithmetic owes: its values as words, and an answer to each operation, a value or a fault.
ghost use Rattle.std.specs.Prelude.{◌≡◌, ◌^◌, ◌<◌};
ghost use Rattle.arithmetic.specs.Meaning.{Meaning};

use records::Fault;

/// Values as words, and an answer to each operation on them.
pub trait Arithmetic {
    type Value: Copy;

    // The answers stand on the operation and its operands alone.
    ghost meaning: { Meaning Self.Value };

    fn pack(&self, value: Self::Value) -> u64
        ensures { result ≡ meaning.pack value };

    fn unpack(&self, word: u64) -> Self::Value
        ensures { result ≡ meaning.unpack word };

    fn literal(&self, argument: i32) -> Result<Self::Value, Fault>
        ensures { result ≡ meaning.literal argument };

    fn negate(&self, value: Self::Value) -> Result<Self::Value, Fault>
        ensures { result ≡ meaning.negate value };

    fn add(&self, left: Self::Value, right: Self::Value) -> Result<Self::Value, Fault>
        ensures { result ≡ meaning.add left right };

    fn subtract(&self, left: Self::Value, right: Self::Value) -> Result<Self::Value, Fault>
        ensures { result ≡ meaning.subtract left right };

    fn multiply(&self, left: Self::Value, right: Self::Value) -> Result<Self::Value, Fault>
        ensures { result ≡ meaning.multiply left right };

    fn divide(&self, left: Self::Value, right: Self::Value) -> Result<Self::Value, Fault>
        ensures { result ≡ meaning.divide left right };

    // A value that is packed unpacks as itself.
    ghost reads_back: { (v : Self.Value) → meaning.unpack (meaning.pack v) ≡ v };

    ghost fits_a_word: { (v : Self.Value) → meaning.pack v < 2 ^ 64 };
}
