// The checker on codes with a known answer, and on random bytes.
use code::check as check_code;
use std::alloc::{AllocError, Global};
use std::process::Abort;
use std::test::Fail;

// A code, the places and the results that it is checked with, and what is printed of the answer.
type Example = (&'static [u8], usize, usize, &'static str);

// What is printed of the checker's answer.
fn answer(heap: Global, code: &[u8], places: usize, results: usize) -> Result<String, AllocError> {
    match check_code(code, places, results) {
        Ok(()) => String::from_str(heap, "passes"),
        Err(refusal) => format!(in heap; "{refusal}"),
    }
}

fn are_answered(rt: &impl Abort, heap: Global, examples: &[Example]) -> Result<(), Fail> {
    for &(code, places, results, wanted) in examples {
        assert_eq!(rt; answer(heap, code, places, results)?.as_str(), wanted);
    }
    Ok(())
}

// One literal, to place 1.
const LITERAL_TO_1: &[u8] = b"\x02\x01\0\0\0\0\0\0\x01\0\0\0\0\0\0\0";

// One addition, to place 0.
const ADD_TO_0: &[u8] = b"\x04\x01\0\0\0\0\0\0\0\0\0\0\0\0\0\0";

// A literal to 0 and then an addition to 0.
const LITERAL_ADD: &[u8] =
    b"\x02\x01\0\0\0\0\0\0\0\0\0\0\0\0\0\0\x04\x01\0\0\0\0\0\0\0\0\0\0\0\0\0\0";

// Two literals to 0.
const TWICE_TO_0: &[u8] =
    b"\x02\x01\0\0\0\0\0\0\0\0\0\0\0\0\0\0\x02\x01\0\0\0\0\0\0\0\0\0\0\0\0\0\0";

// A literal to 0, and one to 0 and 5.
const FULL_THEN_FAR: &[u8] =
    b"\x02\x01\0\0\0\0\0\0\0\0\0\0\0\0\0\0\x02\x02\0\0\0\0\0\0\0\0\x05\0\0\0\0\0";

// A literal to 0, and one to 1 and 5.
const FREE_THEN_FAR: &[u8] =
    b"\x02\x01\0\0\0\0\0\0\0\0\0\0\0\0\0\0\x02\x02\0\0\0\0\0\0\x01\0\x05\0\0\0\0\0";

// The indexed code of t=#0+#1;t*t;
const SQUARE: &[u8] =
    b"\x01\x01\0\0\0\0\0\0\0\0\0\0\0\0\0\0\x01\x01\x01\0\x01\0\0\0\x01\0\0\0\0\0\0\0\x04\x02\x02\0\0\0\0\0\0\0\x01\0\0\0\0\0\x06\x01\x03\0\0\0\0\0\0\0\0\0\0\0\0\0";

// The simple code of #0-#1;
const DIFFERENCE: &[u8] =
    b"\x01\xff\0\0\0\0\0\0\0\0\0\0\0\0\0\0\x01\xff\x01\0\x01\0\0\0\0\0\0\0\0\0\0\0\x05\xff\x02\0\0\0\0\0\0\0\0\0\0\0\0\0";

// Two simple records and then an indexed one.
const SIMPLE_THEN_INDEXED: &[u8] =
    b"\x02\xff\0\0\0\0\0\0\0\0\0\0\0\0\0\0\x02\xff\0\0\0\0\0\0\0\0\0\0\0\0\0\0\x02\x01\0\0\0\0\0\0\0\0\0\0\0\0\0\0";

// An indexed record and then a simple one.
const INDEXED_THEN_SIMPLE: &[u8] =
    b"\x02\x01\0\0\0\0\0\0\0\0\0\0\0\0\0\0\x02\xff\0\0\0\0\0\0\0\0\0\0\0\0\0\0";

// A literal to 0, and one byte more.
const LITERAL_AND_A_BYTE: &[u8] = b"\x02\x01\0\0\0\0\0\0\0\0\0\0\0\0\0\0\0";

// An operation that there is not.
const OPERATION_9: &[u8] = b"\x09\x01\0\0\0\0\0\0\0\0\0\0\0\0\0\0";

const OPERATION_0: &[u8] = b"\0\x01\0\0\0\0\0\0\0\0\0\0\0\0\0\0";

const OPERATION_8: &[u8] = b"\x08\x01\0\0\0\0\0\0\0\0\0\0\0\0\0\0";

// Inputs whose number is out of range.
const INPUT_64: &[u8] = b"\x01\x01\0\0\x40\0\0\0\0\0\0\0\0\0\0\0";

const INPUT_MINUS_1: &[u8] = b"\x01\x01\0\0\xff\xff\xff\xff\0\0\0\0\0\0\0\0";

// An addition with an argument.
const ADD_WITH_ARGUMENT: &[u8] = b"\x04\x01\0\0\x01\0\0\0\0\0\0\0\0\0\0\0";

// Places that are too many, that are not counted, and that do not ascend.
const FIVE_PLACES: &[u8] = b"\x02\x05\0\0\0\0\0\0\0\0\x01\0\x02\0\x03\0";

const PLACE_NOT_COUNTED: &[u8] = b"\x02\x01\0\0\0\0\0\0\0\0\x01\0\0\0\0\0";

const SAME_PLACE_TWICE: &[u8] = b"\x02\x02\0\0\0\0\0\0\x01\0\x01\0\0\0\0\0";

const PLACES_DESCEND: &[u8] = b"\x02\x02\0\0\0\0\0\0\x02\0\x01\0\0\0\0\0";

// A literal to the rear, with a place.
const REAR_WITH_A_PLACE: &[u8] = b"\x02\xff\0\0\0\0\0\0\x01\0\0\0\0\0\0\0";

// A literal to the last place that there can be, and one past it.
const LITERAL_TO_4095: &[u8] = b"\x02\x01\0\0\0\0\0\0\xff\x0f\0\0\0\0\0\0";

const LITERAL_TO_4096: &[u8] = b"\x02\x01\0\0\0\0\0\0\0\x10\0\0\0\0\0\0";

// A literal to four places.
const LITERAL_TO_FOUR: &[u8] = b"\x02\x04\0\0\xff\xff\xff\xff\0\0\x01\0\x02\0\x03\0";

// The last input, of the last node.
const INPUT_63: &[u8] = b"\x01\x01\xff\xff\x3f\0\0\0\0\0\0\0\0\0\0\0";

#[test]
fn sound_code_passes(rt: HostRuntime) -> Result<(), Fail> {
    let examples: [Example; 8] = [
        (b"", 0, 0, "passes"),
        (b"", 4096, 0, "passes"),
        (SQUARE, 2, 1, "passes"),
        (SQUARE, 5000, 1, "passes"),
        (DIFFERENCE, 2, 1, "passes"),
        (b"\x02\0\0\0\0\0\0\0\0\0\0\0\0\0\0\0", 0, 0, "passes"),
        (LITERAL_TO_FOUR, 4, 4, "passes"),
        (INPUT_63, 1, 1, "passes"),
    ];
    are_answered(&rt, rt.alloc(), &examples)
}

#[test]
fn unsound_code_is_refused(rt: HostRuntime) -> Result<(), Fail> {
    let examples: [Example; 18] = [
        (LITERAL_TO_1, 2, 1, "refused 25 at 1"),
        (LITERAL_TO_1, 1, 1, "refused 24 at 0"),
        (LITERAL_TO_1, 0, 1, "refused 24 at 0"),
        (b"", 0, 1, "refused 25 at 0"),
        (b"", 8, 16, "refused 25 at 0"),
        (ADD_TO_0, 2, 1, "refused 22 at 0"),
        (LITERAL_ADD, 2, 1, "refused 22 at 1"),
        (LITERAL_ADD, 1, 1, "refused 22 at 1"),
        (TWICE_TO_0, 2, 1, "refused 23 at 1"),
        (FULL_THEN_FAR, 2, 1, "refused 23 at 1"),
        (FREE_THEN_FAR, 2, 1, "refused 24 at 1"),
        (SQUARE, 1, 1, "refused 24 at 1"),
        (SQUARE, 2, 0, "refused 25 at 4"),
        (SQUARE, 2, 2, "refused 25 at 4"),
        (DIFFERENCE, 1, 1, "refused 24 at 1"),
        (LITERAL_TO_4095, 5000, 0, "refused 25 at 1"),
        (LITERAL_TO_4096, 5000, 0, "refused 24 at 0"),
        (LITERAL_TO_4096, 4096, 0, "refused 24 at 0"),
    ];
    are_answered(&rt, rt.alloc(), &examples)
}

#[test]
fn malformed_code_is_refused(rt: HostRuntime) -> Result<(), Fail> {
    let examples: [Example; 16] = [
        (LITERAL_AND_A_BYTE, 2, 1, "refused 20 at 0"),
        (b"\x09", 2, 17, "refused 20 at 0"),
        (b"", 2, 17, "refused 16 at 0"),
        (OPERATION_9, 2, 17, "refused 16 at 0"),
        (SIMPLE_THEN_INDEXED, 4, 3, "refused 21 at 2"),
        (INDEXED_THEN_SIMPLE, 4, 2, "refused 21 at 1"),
        (OPERATION_0, 2, 1, "refused 21 at 0"),
        (OPERATION_8, 2, 1, "refused 21 at 0"),
        (INPUT_64, 2, 1, "refused 21 at 0"),
        (INPUT_MINUS_1, 2, 1, "refused 21 at 0"),
        (ADD_WITH_ARGUMENT, 2, 1, "refused 21 at 0"),
        (FIVE_PLACES, 9, 1, "refused 21 at 0"),
        (PLACE_NOT_COUNTED, 9, 1, "refused 21 at 0"),
        (SAME_PLACE_TWICE, 9, 1, "refused 21 at 0"),
        (PLACES_DESCEND, 9, 1, "refused 21 at 0"),
        (REAR_WITH_A_PLACE, 9, 1, "refused 21 at 0"),
    ];
    are_answered(&rt, rt.alloc(), &examples)
}

#[test]
fn more_than_1024_records_are_refused(rt: HostRuntime) -> Result<(), Fail> {
    let heap = rt.alloc();
    let mut code = Vec::new(heap);
    for _ in 0..1024 {
        code.extend_from_slice(b"\x02\0\0\0\0\0\0\0\0\0\0\0\0\0\0\0")?;
    }
    assert_eq!(rt; answer(heap, code.as_slice(), 0, 0)?.as_str(), "passes");
    code.extend_from_slice(b"\x02\0\0\0\0\0\0\0\0\0\0\0\0\0\0\0")?;
    assert_eq!(rt;
        answer(heap, code.as_slice(), 0, 0)?.as_str(),
        "refused 20 at 0"
    );
    Ok(())
}

fn next(seed: u64) -> u64 {
    seed.wrapping_mul(6364136223846793005)
        .wrapping_add(1442695040888963407)
}

// A number below n, from the higher half of the seed.
fn draw(seed: u64, n: u64) -> u64 {
    (seed >> 33).checked_rem(n).unwrap_or(0)
}

// Every answer is a yes or one of the checker's refusals.
fn is_some_answer(rt: &impl Abort, code: &[u8], places: usize, results: usize) {
    if let Err(refusal) = check_code(code, places, results) {
        let number = refusal.reason.number();
        assert!(rt; number == 16 || 20 <= number && number <= 25);
        assert!(rt; refusal.place <= code.len());
    }
}

#[test]
fn random_bytes_are_answered(rt: HostRuntime) -> Result<(), Fail> {
    let mut seed = 7;
    let mut code = Vec::new(rt.alloc());
    for _ in 0..400 {
        seed = next(seed);
        code.push((draw(seed, 256) & 0xff) as u8)?;
        is_some_answer(
            &rt,
            code.as_slice(),
            (draw(seed, 20) & 0xff) as usize,
            (draw(seed, 18) & 0xff) as usize,
        );
    }
    Ok(())
}

// Lawful looking records, so that most codes come as far as their places.
#[test]
fn random_records_are_answered(rt: HostRuntime) -> Result<(), Fail> {
    let mut seed = 11;
    for _ in 0..200 {
        let mut code = Vec::new(rt.alloc());
        for _ in 0..12 {
            seed = next(seed);
            let operation = (draw(seed, 7) & 7) as u8 + 1;
            seed = next(seed);
            let place = (draw(seed, 6) & 7) as u8;
            let count = if place == 5 { 0 } else { 1 };
            let used = if count == 0 { 0 } else { place };
            code.extend_from_slice(&[
                operation, count, 0, 0, 0, 0, 0, 0, used, 0, 0, 0, 0, 0, 0, 0,
            ])?;
            is_some_answer(&rt, code.as_slice(), 4, 1);
        }
    }
    Ok(())
}
