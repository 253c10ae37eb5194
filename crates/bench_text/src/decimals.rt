// Reads decimal numbers.
ghost use Rattle.std.specs.Prelude.{◌≡◌};
ghost use Rattle.bench_text.specs.Decimal.{decimal_more, decimal_number};

// What `value` becomes with one more digit, where `byte` is a digit and the number stays below 2^64.
fn one_more_digit(value: usize, byte: u8) -> Option<usize>
    ensures { result ≡ decimal_more value byte }
{
    match byte {
        b'0'..=b'9' => value.checked_mul(10)?.checked_add(usize::from(byte - b'0')),
        _ => None,
    }
}

// The number that `digits` spell: one digit or more, and a value below 2^64.
#[tactic(auto, using(crate::proofs::DecimalNumbers::digit_step))]
pub(crate) fn number(digits: &[u8]) -> Option<usize>
    ensures { result ≡ decimal_number digits.now }
{
    if digits.is_empty() {
        return None;
    }
    let mut value = 0;
    for &byte in digits {
        value = one_more_digit(value, byte)?;
    }
    Some(value)
}
