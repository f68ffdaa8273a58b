// What the calls of all crates mean: definitions in specs/ and laws in proofs/. The code has one answer, the numbers of
// the refusals, flags, bytes and wholes, and one limit.
#![tactic(auto)]

pub mod bytes;
pub mod flags;
pub mod limits;
pub mod refusals;
pub mod wholes;
