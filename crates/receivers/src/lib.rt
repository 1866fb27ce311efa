// Two logs of one pass: which of them is calmer in a stretch, and that stretch of it.
#![tactic(auto)]

mod spread;
pub mod stretch;

// Patterns of the least and of the greatest value of a list.
#[derive(Clone, Copy)]
pub struct Extremes {
    pub least: u32,
    pub greatest: u32,
}

// The logs, in the order of their numbers 1 and 2.
#[derive(Clone, Copy, Debug, PartialEq, Eq, Hash)]
pub enum Log {
    First,
    Second,
}
