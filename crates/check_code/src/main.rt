// Reads queue code in hex from standard input and prints what the checker says of it.
#![tactic(auto)]

ghost use Rattle.std.specs.Prelude.{◌≡◌, ◌*◌, ◌≤◌, length, take, is_ok, Err, MatchResult};
ghost use Rattle.bench_text.specs.Reading.{answered, given, reading};
ghost use Rattle.check_code.specs.Reports.{Reports};

mod report;

use bench_text::{BenchCounts, TextError, read_bench};
use code::{RECORD_BYTES, check};
use report::Report;
use std::alloc::Global;
use std::io::Read;
use std::process::ExitCode;

// The report on a text that brings code; the code is put into the buffer.
fn examine(text: &[u8], buffer: &mut [u8]) -> Result<Report, TextError>
    ensures reports_what_is_read { MatchResult result (Reports (reading text.now)) (λ e. Err e ≡ answered text.now buffer.old) }
    ensures refuses_as_the_reader { is_ok result ≡ is_ok (answered text.now buffer.old) }
{
    let counts = read_bench(text, buffer)?;
    Ok(judge(counts, buffer))
}

// The checker's answer to the code that `buffer` begins with.
fn judge(counts: BenchCounts, buffer: &[u8]) -> Report
    requires { 16 * counts.records ≤ length buffer.now }
    ensures { Reports (given counts (take (16 * counts.records) buffer.now)) result }
{
    let code = &buffer[..RECORD_BYTES * counts.records];
    Report {
        counts,
        verdict: check(code, counts.places, counts.results),
    }
}

fn run(rt: &(impl Input + Print), heap: Global) -> anyhow::Result<()> {
    let mut text = Vec::new(heap);
    rt.reader().read_to_end(&mut text)?;
    let mut buffer = vec![in heap; 0u8; text.len() / 2]?;
    let report = examine(text.as_slice(), buffer.as_mut_slice())?;
    println!(rt; "{report}")?;
    Ok(())
}

fn main(rt: HostRuntime) -> anyhow::Result<ExitCode> {
    // Not by `?`: the library would print the error once more.
    let Err(error) = run(&rt, rt.alloc()) else {
        return Ok(ExitCode::SUCCESS);
    };
    eprintln!(rt; "{error}")?;
    Ok(ExitCode::FAILURE)
}
