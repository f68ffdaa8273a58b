// The histogram file: its numbers, the reader and the writer, over lent slices.
#![tactic(auto)]

pub mod number;
pub mod reader;
pub mod writer;
