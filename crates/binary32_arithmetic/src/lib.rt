// Arithmetic on binary32 patterns: sum, difference, product and quotient of two patterns, and the sum of two slices.
#![tactic(auto)]

pub mod operations;
pub mod slices;

use theory::Mark;

// A result as a pattern, and its mark against the exact result.
#[derive(Clone, Copy, Debug, PartialEq, Eq, Hash)]
pub struct MarkedPattern {
    pub pattern: u32,
    pub mark: Mark,
}
