// The C interface of what no user calls: the rest of layers 1 to 3, for oracle/ only.
#![tactic(auto)]

pub mod errors;
pub mod lobes;
pub mod log_sums;
pub mod masses;
pub mod numbers;
pub mod params;
pub mod recovery;
pub mod shelf_rules;
pub mod shelves;
pub mod tables;
