// Texts with marks, filled with numbers, in lent bytes.
#![tactic(auto)]

mod decimals;
pub mod filling;
pub mod floats;
mod puts;
