// The program for places: each line of the input is answered by a line.
#![tactic(auto)]

mod blocks;
pub mod digits;
mod printing;
mod reading;
pub mod stream;
