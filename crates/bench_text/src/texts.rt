// Reads a whole text: the line of numbers, and then the code records.
ghost use Rattle.std.specs.Prelude.{◌≡◌, ◌+◌, ◌*◌, ◌/◌, ◌^◌, ◌<◌, ◌≤◌, [], ◌++◌, length, sum_by, take, drop, IfOk};
ghost use Rattle.bench_text.specs.declared.answers.Expected.TheVariants.{Record};
ghost use Rattle.bench_text.specs.declared.answers.TextError.TheVariants.{Line};
ghost use Rattle.bench_text.specs.Reading.{records_from, reading, given, answer_of, code_of, placed, answered, filled};
ghost use Rattle.bench_text.specs.Spelling.{Judges};

use crate::answers::{BenchCounts, Expected, TextError};
use crate::headings::{Header, read_header};
use crate::hexes::{RECORD_BYTES, code_record};
use crate::lines::Lines;

// Writes a code record after `records` others.
fn write_record(code: &mut [u8], records: usize, bytes: [u8; RECORD_BYTES])
    requires { 16 * (records + 1) ≤ length code.old }
    ensures front { take (16 * (records + 1)) code.new ≡ take (16 * records) code.old ++ bytes }
    ensures back { drop (16 * (records + 1)) code.new ≡ drop (16 * (records + 1)) code.old }
{
    let start = RECORD_BYTES * records;
    code[start..start + RECORD_BYTES].copy_from_slice(&bytes);
}

// The error where the line after `records` code records is none.
fn no_record(records: usize) -> TextError
    requires { records + 2 < 2 ^ 64 }
    ensures { result ≡ Line (records + 2) Record }
{
    TextError::Line {
        number: records + 2,
        expected: Expected::Record,
    }
}

// Writes the code records that these lines spell. The first of them is the second of the text.
fn read_records(
    header: Header,
    record_lines: Lines,
    code: &mut [u8],
) -> Result<BenchCounts, TextError>
    requires { sum_by length record_lines / 2 ≤ length code.old }
    ensures answer { result ≡ answer_of (records_from header 0 [] record_lines.entry) }
    ensures buffer { code.new ≡ placed (code_of (records_from header 0 [] record_lines.entry)) code.old }
    ensures holds_the_code { IfOk result (λ c. (16 * c.records ≤ length code.old) × (records_from header 0 [] record_lines.entry ≡ given c (take (16 * c.records) code.new))) }
{
    let mut counts = BenchCounts {
        places: header.places,
        results: header.results,
        records: 0,
    };
    for line in record_lines {
        let bytes = code_record(line).ok_or(no_record(counts.records))?;
        write_record(code, counts.records, bytes);
        counts.records += 1;
    }
    Ok(counts)
}

/// The counts of `text`, whose code it writes, or the first line that is not of the form.
pub fn read_bench(text: &[u8], code: &mut [u8]) -> Result<BenchCounts, TextError>
    ensures answer { result ≡ answered text.now code.old }
    ensures buffer { code.new ≡ filled text.now code.old }
    ensures holds_the_code { IfOk result (λ c. (16 * c.records ≤ length code.old) × (reading text.now ≡ given c (take (16 * c.records) code.new))) }
    ensures judges_the_text { Judges result text.now code.old code.new }
{
    if code.len() < text.len() / 2 {
        return Err(TextError::BufferTooShort);
    }
    let mut lines = Lines::new(text);
    let header = lines.next().and_then(read_header).ok_or(TextError::Line {
        number: 1,
        expected: Expected::Numbers,
    })?;
    read_records(header, lines, code)
}
