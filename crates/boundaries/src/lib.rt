// The strips of a boundary summed from the first on, each step a three-step sum, on binary32 patterns.
#![tactic(auto)]

mod small;
mod steps;
pub mod sum;

// What a step leaves: the running sum x and the rest y, as patterns.
#[derive(Clone, Copy)]
pub struct Step {
    pub x: u32,
    pub y: u32,
}
