// The C interface of what no user calls, as a static library for oracle/ alone: each function calls that of its name
// in probe.
#![tactic(auto)]

mod errors;
mod lobes;
mod log_sums;
mod masses;
mod numbers;
mod params;
mod recovery;
mod shelf_rules;
mod shelves;
mod tables;
