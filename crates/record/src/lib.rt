// The record of a pick: what was asked, what each attempt came to, the fit that is selected and its cutoffs, as text.
#![tactic(auto)]

pub mod answers;
pub mod attempt_lines;
pub mod fit_lines;
pub mod heads;
pub mod leaning;
pub mod records;
pub mod values;
