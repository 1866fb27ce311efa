// Saved lines: the one nearest to a query, those within reach, and the nearest for each of a row of queries. Offsets are binary32 patterns, and every comparison is one of exact values.
#![tactic(auto)]

mod checks;
mod distances;
pub mod nearest;
pub mod reach;
pub mod row;
