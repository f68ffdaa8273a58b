// Layer 1: exp, ln, expm1 and lgamma with their tables, rounding to a whole number, maximum and minimum, saturating
// casts, a float as its bits.
#![tactic(auto)]

pub mod bits;
pub mod casts;
pub mod exp;
pub mod expm1;
pub mod held;
pub mod hoists;
pub mod lgamma;
pub mod ln;
pub mod ln_table;
pub mod pick;
pub mod tables;
pub mod whole;
