// Reads the text form in which a test bench hands over queue code.
#![tactic(auto)]

mod answers;
mod cuts;
mod decimals;
mod headings;
mod hexes;
mod lines;
mod texts;

pub use answers::{BenchCounts, Expected, TextError};
pub use texts::read_bench;
