// decimal32 patterns in densely packed form, IEEE 754 clause 3.5: a sign bit, a combination field of 11 bits, two declets.
#![tactic(auto)]

mod declets;
mod prepared;
pub mod reading;
pub mod writing;

// A significand at a place: significand * 10^place in units of 10^-101.
#[derive(Clone, Copy, Debug, PartialEq, Eq, Hash)]
pub struct Placed {
    pub significand: u32,
    pub place: u32,
}
