// The checker: says yes to sound code, or which rule it breaks first and at which record.
ghost use Rattle.std.specs.Prelude.{◌≡◌};
ghost use Rattle.code.specs.Verdict.{first_unlawful, lawful_at, record_count, step_at, verdict, well_formed};
ghost use Rattle.records.specs.Refusals.{answer, outcome};

use crate::marks::Marks;
use crate::sequence::{RECORD_BYTES, lawful_record};
use records::{Reason, Refusal};

/// The most records that a code has.
pub const MOST_RECORDS: usize = 1024;

/// The most results that a code leaves.
pub const MOST_RESULTS: usize = 16;

// How many whole records the code has.
fn record_count(code: &[u8]) -> usize
    ensures { result ≡ record_count code.now }
{
    code.len() / RECORD_BYTES
}

// The first record that is not laid out well or not of the kind of record 0.
fn first_unlawful(code: &[u8]) -> Option<usize>
    ensures { result ≡ first_unlawful code.now (record_count code.now) }
{
    (0..record_count(code)).find(|&index| lawful_record(code, index).is_none())
}

// Length, result count, and each record's layout and kind.
fn well_formed(code: &[u8], results: usize) -> Result<(), Refusal>
    ensures { answer result ≡ well_formed code.now results }
{
    if code.len() % RECORD_BYTES != 0 || record_count(code) > MOST_RECORDS {
        return Err(Reason::CodeLength.at(0));
    }
    if results > MOST_RESULTS {
        return Err(Reason::ResultList.at(0));
    }
    match first_unlawful(code) {
        Some(index) => Err(Reason::RecordMalformed.at(index)),
        None => Ok(()),
    }
}

// Record `index` of the code does its step on the marks.
fn step_at(code: &[u8], index: usize, marks: &mut Marks) -> Result<(), Refusal>
    ensures { outcome result marks.new ≡ step_at index (lawful_at code.now index) marks.old }
{
    let found = lawful_record(code, index).ok_or(Reason::RecordMalformed.at(index))?;
    marks.step(&found).map_err(|reason| reason.at(index))
}

/// Passes the code, run from that many empty places and to leave that many results, or refuses it by the first rule
/// that it breaks, at the record that breaks it.
pub fn check(code: &[u8], places: usize, results: usize) -> Result<(), Refusal>
    ensures is_the_verdict { answer result ≡ verdict code.now places results }
{
    well_formed(code, results)?;
    let records = record_count(code);
    let mut marks = Marks::empty(places);
    // A `for`, since the body changes the marks, and the number is what a refusal tells.
    for index in 0..records {
        step_at(code, index, &mut marks)?;
    }
    if marks.just_front(results) {
        Ok(())
    } else {
        Err(Reason::NotJustResults.at(records))
    }
}
