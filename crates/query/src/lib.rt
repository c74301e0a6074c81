// Queries: joins, filters and shown things, and the draft that puts them together.
#![tactic(auto)]

mod columns;
pub mod drafts;
mod refusals;
mod rows;
pub mod types;
