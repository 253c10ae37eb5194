// The plain types that every part shares: operations, faults, refusals.
#![tactic(auto)]

mod fault;
mod operation;
mod reason;
mod refusal;

pub use fault::Fault;
pub use operation::{Operation, UnknownOperation};
pub use reason::Reason;
pub use refusal::Refusal;
