// Arithmetics: values as words, and operations that answer a value or a fault. Whole numbers, and dimensions.
#![tactic(auto)]

mod arithmetic_trait;
mod dimension;
mod dimensions;
mod exponent;
mod whole;
mod whole_numbers;

pub use arithmetic_trait::Arithmetic;
pub use whole::Whole;
