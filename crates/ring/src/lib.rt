// A ring: slots seen as places from a front that moves on, so that a pass copies nothing.
#![tactic(auto)]

mod ring;

pub use ring::Ring;
