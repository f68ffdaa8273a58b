// Layer 4: from the histogram to the starts, the validator, an attempt and the selection among attempts.
// Ported from src/preprocessing/spectrum_fitter.rs of bacpop/sparrowhawk-asm, f1f8af1232, Apache-2.0; ported and
// changed.
#![tactic(auto)]

pub mod asking;
pub mod attempting;
pub mod attempts;
pub mod fit_rules;
pub mod judging;
pub mod recovering;
pub mod rejections;
pub mod run_columns;
pub mod run_table;
pub mod runs;
pub mod selection;
pub mod settling;
pub mod shares;
pub mod start_writers;
pub mod starts;
pub mod surveys;
pub mod turns;
pub mod validation;
