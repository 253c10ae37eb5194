// What is said of a code: how much there is of it, and the checker's answer.
ghost use Rattle.check_code.specs.Reports.{count_text, report_text};
ghost use Rattle.std.specs.Prelude.{Some};

use bench_text::BenchCounts;
use records::Refusal;
use std::fmt;

// A number and what is counted.
#[derive(Clone, Copy)]
struct Count<'a>(usize, &'a str);

impl fmt::Display for Count<'_> {
    ghost output = { λ c. Some (count_text c.0 c.1.now) };

    fn fmt<W: fmt::Write>(&self, f: &mut fmt::Formatter<W>) -> fmt::Result {
        let Count(number, noun) = *self;
        if number == 1 {
            write!(f, "{number} {noun}")
        } else {
            write!(f, "{number} {noun}s")
        }
    }
}

/// The counts of a text, and the verdict on its code.
#[derive(Clone, Copy)]
pub struct Report {
    pub counts: BenchCounts,
    pub verdict: Result<(), Refusal>,
}

impl fmt::Display for Report {
    ghost output = { λ r. Some (report_text r) };

    fn fmt<W: fmt::Write>(&self, f: &mut fmt::Formatter<W>) -> fmt::Result {
        match self.verdict {
            Ok(()) => {
                let records = Count(self.counts.records, "record");
                let places = Count(self.counts.places, "place");
                let results = Count(self.counts.results, "result");
                write!(f, "passes: {records}, {places}, {results}")
            }
            Err(refusal) => write!(f, "{refusal}"),
        }
    }
}
