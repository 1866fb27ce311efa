// The three-step sum (FastTwoSum) of two numbers of a binary format, and its check.
#![tactic(auto)]

pub mod check;
mod entry;
pub mod sum;

use number::Number;

// x from a + b, z from x - a, y from b - z.
#[repr(C)]
#[derive(Clone, Copy, Debug, PartialEq, Eq, Hash)]
pub struct Steps {
    pub x: Number,
    pub z: Number,
    pub y: Number,
}
