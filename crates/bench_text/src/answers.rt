// What a reader of bench texts answers: the counts of a text, or what is wrong with the text or the buffer.
ghost use Rattle.std.specs.Prelude.{Some};
ghost use Rattle.bench_text.specs.Message.{message, words};

use std::error::Error;
use std::fmt;

/// The numbers of places and of results that queue code is judged by, and the number of its records.
#[derive(Clone, Copy, Debug, PartialEq, Eq)]
pub struct BenchCounts {
    pub places: usize,
    pub results: usize,
    pub records: usize,
}

/// What a line has to be: the two numbers, or a code record.
#[derive(Clone, Copy, Debug, PartialEq, Eq)]
pub enum Expected {
    Numbers,
    Record,
}

/// The first line that is not of the form, counted from 1, or a buffer that the code may not fit into.
#[derive(Clone, Copy, Debug, PartialEq, Eq)]
pub enum TextError {
    Line { number: usize, expected: Expected },
    BufferTooShort,
}

impl fmt::Display for Expected {
    ghost output = { λ e. Some (words e) };

    fn fmt<W: fmt::Write>(&self, f: &mut fmt::Formatter<W>) -> fmt::Result {
        f.write_str(match self {
            Expected::Numbers => "the number of places and the number of results",
            Expected::Record => "32 lower-case hex digits",
        })
    }
}

impl fmt::Display for TextError {
    ghost output = { λ e. Some (message e) };

    fn fmt<W: fmt::Write>(&self, f: &mut fmt::Formatter<W>) -> fmt::Result {
        match self {
            TextError::Line { number, expected } => write!(f, "line {number}: expected {expected}"),
            TextError::BufferTooShort => {
                write!(f, "the code buffer is shorter than half of the text")
            }
        }
    }
}

impl Error for TextError {}
