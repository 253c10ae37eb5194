// Bench texts that are read, bench texts that are refused, and what the buffer holds then, by tables.
use bench_text::{BenchCounts, Expected, TextError, read_bench};
use std::alloc::Global;
use std::process::Abort;
use std::test::Fail;

const ROW: &[u8; 16] = b"\x00\x01\x02\x03\x04\x05\x06\x07\x89\x9a\xab\xbc\xcd\xde\xef\xff";

// What a buffer holds before a text is read.
const FILL: u8 = 0x55;

// The buffer begins with that many copies of the row, and the rest of it is as it was.
fn holds_rows(rt: &impl Abort, buffer: &[u8], rows: usize) -> Result<(), Fail> {
    for (row, bytes) in buffer.chunks(16).enumerate() {
        if row < rows {
            assert!(rt; bytes == ROW.as_slice());
        } else {
            assert!(rt; bytes.iter().all(|&byte| byte == FILL));
        }
    }
    Ok(())
}

// The text is read with the shortest buffer that is long enough.
fn is_read(rt: &impl Abort, heap: Global, text: &[u8], wanted: BenchCounts) -> Result<(), Fail> {
    let mut buffer = vec![in heap; FILL; text.len() / 2]?;
    let counts = read_bench(text, buffer.as_mut_slice())?;
    assert_eq!(rt; counts, wanted);
    holds_rows(rt, buffer.as_slice(), counts.records)
}

// The line is refused, and the buffer holds the rows of the lines before it.
fn is_refused(
    rt: &impl Abort,
    heap: Global,
    text: &[u8],
    number: usize,
    expected: Expected,
) -> Result<(), Fail> {
    let mut buffer = vec![in heap; FILL; text.len() / 2]?;
    let answer = read_bench(text, buffer.as_mut_slice());
    assert_eq!(rt; answer, Err(TextError::Line { number, expected }));
    holds_rows(rt, buffer.as_slice(), number.saturating_sub(2))
}

#[test]
fn good_texts_are_read(rt: HostRuntime) -> Result<(), Fail> {
    let goods: [(&[u8], usize, usize, usize); 8] = [
        (b"3 4\n", 3, 4, 0),
        (b"0 0", 0, 0, 0),
        (b"007 000\n", 7, 0, 0),
        (b"18446744073709551615 1", 18446744073709551615, 1, 0),
        (b"1 2\n0001020304050607899aabbccddeefff\n", 1, 2, 1),
        (b"1 2\n0001020304050607899aabbccddeefff", 1, 2, 1),
        (
            b"1 2\n0001020304050607899aabbccddeefff\n0001020304050607899aabbccddeefff\n",
            1,
            2,
            2,
        ),
        (
            b"1 2\n0001020304050607899aabbccddeefff\n0001020304050607899aabbccddeefff",
            1,
            2,
            2,
        ),
    ];
    for (text, places, results, records) in goods {
        let counts = BenchCounts {
            places,
            results,
            records,
        };
        is_read(&rt, rt.alloc(), text, counts)?;
    }
    Ok(())
}

#[test]
fn bad_first_lines_are_refused(rt: HostRuntime) -> Result<(), Fail> {
    let texts: [&[u8]; 14] = [
        b"",
        b"\n",
        b"3",
        b"3 ",
        b" 3",
        b"3  4",
        b"3 4 ",
        b"3 4\r\n",
        b"3\t4",
        b"+3 4",
        b"18446744073709551616 1",
        b"1 99999999999999999999",
        b"3 4\xff\n",
        b"0001020304050607899aabbccddeefff\n",
    ];
    for text in texts {
        is_refused(&rt, rt.alloc(), text, 1, Expected::Numbers)?;
    }
    Ok(())
}

#[test]
fn bad_records_are_refused(rt: HostRuntime) -> Result<(), Fail> {
    let bads: [(&[u8], usize); 10] = [
        (b"3 4\n\n", 2),
        (b"3 4\n\n0001020304050607899aabbccddeefff\n", 2),
        (b"3 4\n0001020304050607899aabbccddeefff\n\n", 3),
        (b"3 4\n0001020304050607899aabbccddeeff\n", 2),
        (b"3 4\n0001020304050607899aabbccddeefff0\n", 2),
        (b"3 4\n0001020304050607899aabbccddeeffF\n", 2),
        (
            b"3 4\n0001020304050607899aabbccddeefff\n0001020304050607899aabbccddeeffg",
            3,
        ),
        (b"3 4\n0001020304050607899aabbccddeefff\r\n", 2),
        (b"3 4\n0001020304050607899aabbccddeefff \n", 2),
        (b"3 4\n0001020304050607899aabbccddee\xc3\xa9\n", 2),
    ];
    for (text, number) in bads {
        is_refused(&rt, rt.alloc(), text, number, Expected::Record)?;
    }
    Ok(())
}

#[test]
fn errors_are_printed(rt: HostRuntime) -> Result<(), Fail> {
    let heap = rt.alloc();
    let record = TextError::Line {
        number: 3,
        expected: Expected::Record,
    };
    assert!(rt; record.to_string(heap)?.as_str() == "line 3: expected 32 lower-case hex digits");
    let numbers = TextError::Line {
        number: 1,
        expected: Expected::Numbers,
    };
    assert!(rt;
        numbers.to_string(heap)?.as_str()
            == "line 1: expected the number of places and the number of results"
    );
    assert!(rt;
        TextError::BufferTooShort.to_string(heap)?.as_str()
            == "the code buffer is shorter than half of the text"
    );
    Ok(())
}

// A text of 37 bytes wants 18, and is refused with 17 whether or not it is of the form.
#[test]
fn short_buffers_are_refused(rt: HostRuntime) -> Result<(), Fail> {
    let texts: [&[u8]; 2] = [
        b"1 2\n0001020304050607899aabbccddeefff\n",
        b"1  2\n0001020304050607899aabbccddeefff",
    ];
    for text in texts {
        let mut buffer = [FILL; 17];
        assert_eq!(rt;
            read_bench(text, &mut buffer),
            Err(TextError::BufferTooShort)
        );
        holds_rows(&rt, &buffer, 0)?;
    }
    Ok(())
}

#[test]
fn many_records_are_read(rt: HostRuntime) -> Result<(), Fail> {
    let heap = rt.alloc();
    let mut text = b"2 3\n".to_vec(heap)?;
    for _ in 0..1025 {
        text.extend_from_slice(b"0001020304050607899aabbccddeefff\n")?;
    }
    let mut buffer = vec![in heap; FILL; text.len()]?;
    let counts = read_bench(text.as_slice(), buffer.as_mut_slice())?;
    assert_eq!(rt; counts.records, 1025);
    holds_rows(&rt, buffer.as_slice(), 1025)
}
