// Rump's routes: the first place and the last place of a number by the engine's own operations alone, and by
// its successor.
#![tactic(auto)]

mod constants;
mod figures;
mod premises;
pub mod routes;
mod successors;

// Figures 1, 3, 4 and 5 of source document 000, without the successor. An enum, as the premises and the routes are defined by it
// (specs/Premises, specs/Routes).
#[derive(Clone, Copy, Debug, PartialEq, Eq, Hash)]
pub enum Figure {
    First,
    Third,
    Fourth,
    Fifth,
}
