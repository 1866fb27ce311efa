// The arithmetic of the wide format: sum, product, quotient, fraction and conversion, each exact value cut and rounded once. It knows no
// formats, no signed exponents and no refusals.
#![tactic(auto)]

pub mod conversion;
pub mod long_division;
pub mod product;
pub mod quotient;
pub mod sum;
