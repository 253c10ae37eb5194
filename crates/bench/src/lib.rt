// Worked examples as proved statements, and tests by table over the other crates.
#![tactic(auto)]

#[cfg(test)]
mod bench_text_tests;
#[cfg(test)]
mod checker_tests;
mod examples;
#[cfg(test)]
mod record_tests;

pub use examples::literal_to_place_1;
