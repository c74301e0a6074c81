// The run of a query: rows are fed to it, steps move its tuples on, and ready lines are taken and posted.
#![tactic(auto)]

pub mod counts;
mod refusals;
pub mod run;
pub mod types;
