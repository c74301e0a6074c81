// Select-project-join: what a combination of rows shows, whether it meets the query, its line, and the answer by nested loops.
#![tactic(auto)]

pub mod lines;
pub mod meets;
