// Sum, difference, product and quotient of numbers of a format, fractions of whole numbers, and numbers of any form taken into a
// format: the exact result, rounded once in a direction, and its mark; of a quotient also how many of its digits were worked out. Each
// module has the operation on a prepared format, with the mark and without, and the call, which takes anything.
#![tactic(auto)]

pub mod conversion;
pub mod fraction;
pub mod operands;
pub mod product;
pub mod quotient;
pub mod sum;

use number::Number;
use theory::Mark;

// A rounded number, and how it stands to the exact result.
#[derive(Clone, Copy, Debug, PartialEq, Eq, Hash)]
pub struct Rounded {
    pub number: Number,
    pub mark: Mark,
}

// A rounded quotient, how it stands to the exact one, and how many quotient digits were worked out.
#[derive(Clone, Copy, Debug, PartialEq, Eq, Hash)]
pub struct CountedQuotient {
    pub number: Number,
    pub mark: Mark,
    pub digits: u32,
}
