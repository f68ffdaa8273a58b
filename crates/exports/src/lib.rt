// The C interface of what users call. include/fogatise.h says each function in C.
#![tactic(auto)]

pub mod answers;
pub mod costs;
pub mod densities;
pub mod families;
pub mod files;
pub mod fits;
pub mod flat_attempts;
pub mod flat_cutoffs;
pub mod four;
pub mod masses;
pub mod readers;
pub mod run_slices;
pub mod run_tables;
pub mod searches;
pub mod shelf;
pub mod spectra;
pub mod starts;
pub mod tables;
pub mod verdicts;
