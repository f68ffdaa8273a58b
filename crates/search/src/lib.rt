// Our own simplex search, by Nelder and Mead's rule, over the cost of a parameter list.
#![tactic(auto)]

pub mod beginning;
pub mod firsts;
pub mod order;
pub mod points;
pub mod prices;
pub mod refusing;
pub mod reporting;
pub mod rows;
pub mod searching;
pub mod spread;
pub mod steps;
pub mod turns;
