// Reads code records spelt in lower-case hex digits.
ghost use Rattle.std.specs.Prelude.{◌≡◌};
ghost use Rattle.bench_text.specs.Hex.{hex_digit, hex_byte, hex_record};

// How many bytes a code record has.
pub(crate) const RECORD_BYTES: usize = 16;

// How many digits spell a code record.
const RECORD_DIGITS: usize = 2 * RECORD_BYTES;

// The value of a lower-case hex digit.
fn nibble(digit: u8) -> Option<u8>
    ensures { result ≡ hex_digit digit }
{
    match digit {
        b'0'..=b'9' => Some(digit - b'0'),
        b'a'..=b'f' => Some(digit - b'a' + 10),
        _ => None,
    }
}

// The byte that two digits spell.
fn byte(first: u8, second: u8) -> Option<u8>
    ensures { result ≡ hex_byte first second }
{
    let high = nibble(first)?;
    let low = nibble(second)?;
    Some(high * 16 + low)
}

// The 16 bytes that the 32 digits of a line spell.
pub(crate) fn code_record(line: &[u8]) -> Option<[u8; RECORD_BYTES]>
    ensures { result ≡ hex_record line.now }
{
    if line.len() != RECORD_DIGITS {
        return None;
    }
    let (pairs, _) = line.as_chunks::<2>();
    let mut bytes = [0u8; RECORD_BYTES];
    // By number, since of the items of an `iter_mut` under `zip` nothing is known afterwards.
    for (i, &[first, second]) in pairs.iter().enumerate() {
        bytes[i] = byte(first, second)?;
    }
    Some(bytes)
}
