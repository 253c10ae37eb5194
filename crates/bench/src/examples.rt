// Codes whose verdict is worked out in the contract.
ghost use Rattle.std.specs.Prelude.{◌≡◌};
ghost use Rattle.bench.specs.Examples.{WorkedVerdicts, literal_to_place_1};
ghost use Rattle.code.specs.Verdict.{verdict};
ghost use Rattle.records.specs.Refusals.{answer};

use code::check;
use records::Refusal;

/// The checker's answer to one literal record that puts on place 1, with one result; and worked verdicts.
pub fn literal_to_place_1(places: usize) -> Result<(), Refusal>
    ensures is_the_verdict { answer result ≡ verdict literal_to_place_1 places 1 }
    ensures worked_verdicts { WorkedVerdicts }
{
    one_literal(places)
}

fn one_literal(places: usize) -> Result<(), Refusal>
    ensures { answer result ≡ verdict literal_to_place_1 places 1 }
{
    with_one_result(&[2, 1, 0, 0, 0, 0, 0, 0, 1, 0, 0, 0, 0, 0, 0, 0], places)
}

// The checker's answer to code that is to leave one result.
fn with_one_result(code: &[u8], places: usize) -> Result<(), Refusal>
    ensures { answer result ≡ verdict code.now places 1 }
{
    check(code, places, 1)
}
