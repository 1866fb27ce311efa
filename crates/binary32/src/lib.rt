// binary32 patterns, laid out as in IEEE 754: a sign bit, an exponent field of 8 bits, a fraction of 23 bits.
#![tactic(auto)]

pub mod finite;
pub mod order;
pub mod patterns;
pub mod places;
pub mod prepared;
