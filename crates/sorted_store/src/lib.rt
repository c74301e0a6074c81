// An index that finds a table's rows by binary search: a caller's places, with a sorted list for each column.
#![tactic(auto)]

mod columns;
pub mod index;
pub mod place;
