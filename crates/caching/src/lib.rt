// A layer over any store that remembers answers to `next`.
#![tactic(auto)]

pub mod cache;
mod memory;
pub mod types;
