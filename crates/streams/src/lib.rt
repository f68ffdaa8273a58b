// What a program reads and writes, to the end, and what it says where that fails.
#![tactic(auto)]

pub mod failure;
pub mod input;
pub mod output;
