// The four routines under C names, as a static library.
#![tactic(auto)]

mod exp;
mod expm1;
mod lgamma;
mod ln;
