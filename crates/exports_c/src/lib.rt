// The C interface of what users call, as a static library: each function calls that of its name in exports.
#![tactic(auto)]

mod costs;
mod densities;
mod families;
mod files;
mod flat_attempts;
mod flat_cutoffs;
mod four;
mod masses;
mod readers;
mod run_slices;
mod run_tables;
mod searches;
mod spectra;
mod starts;
mod tables;
mod verdicts;
