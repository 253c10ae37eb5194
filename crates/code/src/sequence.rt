// The records of a stretch of code, and whether each is lawful.
ghost use Rattle.std.specs.Prelude.{◌≡◌, ◌<◌, length, MatchOption};
ghost use Rattle.code.specs.Layout.{record_at, row};
ghost use Rattle.code.specs.Verdict.{is_simple, lawful_at};

use crate::record::Record;
use crate::target::REAR;

/// The bytes of one record.
pub const RECORD_BYTES: usize = 16;

// The bytes of record `index`, if all 16 are there.
fn row(code: &[u8], index: usize) -> Option<&[u8; 16]>
    ensures { MatchOption result (length (row code.now index) < 16) (λ bytes. bytes.now ≡ row code.now index) }
{
    let (rows, _) = code.as_chunks::<RECORD_BYTES>();
    rows.get(index)
}

/// Record `index` of the code, if its 16 bytes are there and laid out well.
pub fn record_at(code: &[u8], index: usize) -> Option<Record>
    ensures { result ≡ record_at code.now index }
{
    Record::read(row(code, index)?)
}

/// Whether byte 1 of record 0 says that the code is simple.
pub fn is_simple(code: &[u8]) -> bool
    ensures { result ≡ is_simple code.now }
{
    code.get(1) == Some(&REAR)
}

/// Record `index`, if it is there, laid out well and of the kind of record 0.
// Inline, so that a caller that asks only whether there is one builds no record.
#[inline(always)]
pub fn lawful_record(code: &[u8], index: usize) -> Option<Record>
    ensures { result ≡ lawful_at code.now index }
{
    record_at(code, index).filter(|found| found.target.is_rear() == is_simple(code))
}
