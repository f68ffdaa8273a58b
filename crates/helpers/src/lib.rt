// Ported from src/preprocessing/math_helpers.rs of bacpop/sparrowhawk-asm, f1f8af1232, Apache-2.0; ported and changed.
#![tactic(auto)]

pub mod hoists;
pub mod kept;
pub mod lobes;
pub mod log_sums;
pub mod masses;
pub mod mixtures;
pub mod pairs;
pub mod prepared;
pub mod shelves;
pub mod single_copies;
pub mod window_ends;
