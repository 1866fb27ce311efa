// The places of a number and its neighbours: ufp, ulp, uls, predecessor, successor, and whether two numbers lie within one step.
#![tactic(auto)]

pub mod neighbours;
pub mod places;
pub mod powers_of_base;
