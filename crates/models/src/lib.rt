// Layer 3: families, parameters, cost, fit, heights, modes, and the three cutoffs.
// Ported from src/preprocessing/models.rs of bacpop/sparrowhawk-asm, f1f8af1232, Apache-2.0; ported and changed.
#![tactic(auto)]

pub mod costs;
pub mod cutoffs;
pub mod deviances;
pub mod errors;
pub mod families;
pub mod fit;
pub mod fit_words;
pub mod height_cutoffs;
pub mod height_rows;
pub mod height_terms;
pub mod heights;
pub mod likelihoods;
pub mod modes;
pub mod params;
pub mod parts;
pub mod prepared;
pub mod problems;
pub mod recovery;
pub mod refusals;
pub mod scans;
pub mod shelf_rules;
pub mod spectra;
pub mod steady;
pub mod tables;
pub mod unpacking;
pub mod usable;
pub mod walk;
pub mod window_masses;
