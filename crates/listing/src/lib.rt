// The listing of a histogram file as text, in lent bytes.
#![tactic(auto)]

pub mod text;
