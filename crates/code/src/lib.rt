// Queue code: the 16-byte record, its layout, and the checker.
#![tactic(auto)]

mod checker;
mod marks;
mod places;
mod record;
mod sequence;
mod target;

pub use checker::{MOST_RECORDS, MOST_RESULTS, check};
pub use marks::MOST_PLACES;
pub use places::Places;
pub use record::Record;
pub use sequence::{RECORD_BYTES, is_simple, lawful_record, record_at};
pub use target::Target;
