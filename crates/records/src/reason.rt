// Why a call is turned away: one case for each of the thirty refusals.
ghost use Rattle.std.specs.Prelude.{◌≡◌, ◌↔◌, IsTrue, nat_eq};
ghost use Rattle.records.specs.Refusals.{fault_number, fault_of, reason_number, reason_numbers};
ghost use Rattle.std.specs.Ordering.{eq_of_both, on};
ghost use Rattle.std.specs.Cmp.Rules.{comparing};
ghost use Rattle.std.proofs.Common.{rules};

use crate::fault::Fault;

/// Why a call is turned away.
#[derive(Clone, Copy, Debug)]
pub enum Reason {
    // the card
    CardTooLong,
    NoToken,
    TokenOutOfPlace,
    NumberTooLarge,
    NameTooLong,
    NameNotKnown,
    NameGivenAgain,
    TooDeep,
    NoResult,
    TooManyResults,
    // a table of the caller's
    TableTooShort,
    // the node table
    NodeCount,
    OperationUnknown,
    OperandNotInTable,
    InputOutOfRange,
    ResultList,
    Cycle,
    TooManyUses,
    // the code buffer of the caller's
    CodeBufferTooShort,
    // the code
    CodeLength,
    RecordMalformed,
    PlaceEmpty,
    PlaceFull,
    PlaceMissing,
    NotJustResults,
    // the caller
    WrongState,
    InputMissing,
    QueueNotEmpty,
    // the values
    Faulted(Fault),
    // the result buffer of the caller's
    ResultBufferTooShort,
}

impl Reason {
    /// The number of the refusal, 1 to 30; a case with a field can have no discriminant.
    pub fn number(&self) -> u8
        ensures { result ≡ reason_number self.now }
    {
        match self {
            Reason::CardTooLong => 1,
            Reason::NoToken => 2,
            Reason::TokenOutOfPlace => 3,
            Reason::NumberTooLarge => 4,
            Reason::NameTooLong => 5,
            Reason::NameNotKnown => 6,
            Reason::NameGivenAgain => 7,
            Reason::TooDeep => 8,
            Reason::NoResult => 9,
            Reason::TooManyResults => 10,
            Reason::TableTooShort => 11,
            Reason::NodeCount => 12,
            Reason::OperationUnknown => 13,
            Reason::OperandNotInTable => 14,
            Reason::InputOutOfRange => 15,
            Reason::ResultList => 16,
            Reason::Cycle => 17,
            Reason::TooManyUses => 18,
            Reason::CodeBufferTooShort => 19,
            Reason::CodeLength => 20,
            Reason::RecordMalformed => 21,
            Reason::PlaceEmpty => 22,
            Reason::PlaceFull => 23,
            Reason::PlaceMissing => 24,
            Reason::NotJustResults => 25,
            Reason::WrongState => 26,
            Reason::InputMissing => 27,
            Reason::QueueNotEmpty => 28,
            Reason::Faulted(_) => 29,
            Reason::ResultBufferTooShort => 30,
        }
    }

    /// The fault that a refusal 29 carries.
    pub fn fault(&self) -> Option<Fault>
        ensures { result ≡ fault_of self.now }
    {
        match self {
            Reason::Faulted(fault) => Some(*fault),
            _ => None,
        }
    }
}

// By hand, since of a derived one on so many cases nothing says that reasons which it calls equal are equal.
impl PartialEq for Reason {
    ghost eq = { eq_of_both (on reason_number nat_eq) (on fault_number nat_eq) };

    ghost laws = { Prim.search (comparing, rules) };

    fn eq(&self, other: &Reason) -> bool
        ensures value { result ≡ eq_of_both (on reason_number nat_eq) (on fault_number nat_eq) self.now other.now }
        ensures decides { IsTrue result ↔ (reason_numbers self.now ≡ reason_numbers other.now) }
    {
        self.number() == other.number() && self.fault() == other.fault()
    }
}

impl Eq for Reason {
    ghost laws = { Prim.search (comparing, rules) };
}
