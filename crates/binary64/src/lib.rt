// binary64 patterns, laid out as in IEEE 754: a sign bit, an exponent field of 11 bits, a fraction of 52 bits.
#![tactic(auto)]

pub mod patterns;
mod prepared;
