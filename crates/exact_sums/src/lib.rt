// Two sums of binary32 patterns compared exactly, in the wide format.
#![tactic(auto)]

mod numbers;
pub mod sums;
