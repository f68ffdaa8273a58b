// The words of a command line, from their bytes.
#![tactic(auto)]

pub mod numbers;
