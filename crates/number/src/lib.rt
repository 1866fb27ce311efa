// Numbers of a format: which are in it, the checks that every call begins with, comparison, negation and magnitude; what the patterns
// of every format share.
#![tactic(auto)]

pub mod checks;
pub mod delivery;
pub mod exponents;
mod members;
pub mod order;
pub mod patterns;
pub mod signs;

use format::Significand;

// The value (-1)^negative * significand * base^exponent.
#[repr(C)]
#[derive(Clone, Copy, Debug, PartialEq, Eq, Hash)]
pub struct Number {
    pub negative: bool,
    pub significand: Significand,
    pub exponent: i32,
}
