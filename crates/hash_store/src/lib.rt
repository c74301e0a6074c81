// An index that finds a table's rows by hashing: a caller's places, chained by column and bucket.
#![tactic(auto)]

mod adds;
mod chain;
pub mod index;
pub mod place;
