// The calls of the rows.
ghost use Rattle.std.specs.Prelude.{◌≡◌, true, false};
ghost use Rattle.format.specs.Given.{given};
ghost use Rattle.arithmetic.specs.Quotients.{without_digits};
ghost use Rattle.vectors.specs.Calls.{whole, whole_order, pattern_number, mark_number, mark_whole, digits_whole, first_of_steps, answer_of};

use arithmetic::operands::unmarked;
use arithmetic::quotient::quotient;
use arithmetic::{CountedQuotient, Rounded};
use binary32_arithmetic::operations;
use decimal32::reading::read_decimal32;
use decimal32::writing::write_decimal32;
use fast_two_sum::Steps;
use fast_two_sum::sum::fast_two_sum;
use format::{Format, Refusal, Significand};
use number::Number;
use std::cmp::Ordering;
use theory::Mark;

// A whole number.
pub fn whole(negative: bool, n: Significand) -> Number
    ensures { result ≡ whole negative n }
{
    Number {
        negative,
        significand: n,
        exponent: 0,
    }
}

// A quotient without the number of its digits.
fn without_digits(answer: Result<CountedQuotient, Refusal>) -> Result<Rounded, Refusal>
    ensures { given result ≡ without_digits (given answer) }
{
    let quotient = answer?;
    Ok(Rounded {
        number: quotient.number,
        mark: quotient.mark,
    })
}

// An order as -1, 0 or 1: a number with a sign, which no conversion makes of an order.
fn order_number(answer: Result<Ordering, Refusal>) -> Result<Number, Refusal>
    ensures { given result ≡ whole_order (given answer) }
{
    match answer? {
        Ordering::Less => Ok(whole(true, 1)),
        Ordering::Equal => Ok(whole(false, 0)),
        Ordering::Greater => Ok(whole(false, 1)),
    }
}

// A pattern as a whole number.
fn pattern_number(pattern: Result<u32, Refusal>) -> Result<Number, Refusal>
    ensures { given result ≡ pattern_number (given pattern) }
{
    Ok(whole(false, Significand::from(pattern?)))
}

// A mark as 0, 1 or 2: exact, low, high.
fn mark_number(mark: Mark) -> Significand
    ensures { result ≡ mark_number mark }
{
    mark as Significand
}

// The mark of a result, as a whole number.
fn mark_whole(answer: Result<Rounded, Refusal>) -> Result<Number, Refusal>
    ensures { given result ≡ mark_whole (given answer) }
{
    Ok(whole(false, mark_number(answer?.mark)))
}

// The number of quotient digits, as a whole number.
fn digits_number(answer: Result<CountedQuotient, Refusal>) -> Result<Number, Refusal>
    ensures { given result ≡ digits_whole (given answer) }
{
    Ok(whole(false, Significand::from(answer?.digits)))
}

// x of three steps.
fn first_step(steps: Result<Steps, Refusal>) -> Result<Number, Refusal>
    ensures { given result ≡ first_of_steps (given steps) }
{
    Ok(steps?.x)
}

// What the operation with this number answers; the last is the three-step sum. Patterns and a denominator stand as significands. The
// operations go by their numbers in the rows: an enum of them would need a table from number to name beside this one.
pub fn answer_of(
    operation: u32,
    format: Format,
    d: u32,
    a: Number,
    b: Number,
) -> Result<Number, Refusal>
    ensures { given result ≡ answer_of operation format d a b }
{
    let m = (a.significand % 4294967296) as u32;
    let n = (b.significand % 4294967296) as u32;
    match operation {
        0 => unmarked(arithmetic::sum::sum(format, d, a, b)),
        1 => unmarked(arithmetic::sum::difference(format, d, a, b)),
        2 => unmarked(arithmetic::product::product(format, d, a, b)),
        3 => unmarked(without_digits(quotient(format, d, a, b))),
        4 => unmarked(arithmetic::fraction::fraction(format, d, a.exponent, n)),
        5 => order_number(number::order::compare(format, a, b)),
        6 => number::signs::magnitude(format, a),
        7 => number::signs::negate(format, a),
        8 => units::neighbours::predecessor(format, a),
        9 => units::neighbours::successor(format, a),
        10 => units::places::ufp(format, a),
        11 => pattern_number(operations::without_mark(operations::pattern_sum(d, m, n))),
        12 => pattern_number(operations::without_mark(operations::pattern_difference(d, m, n))),
        13 => pattern_number(operations::without_mark(operations::pattern_product(d, m, n))),
        14 => pattern_number(operations::without_mark(operations::pattern_quotient(d, m, n))),
        15 => mark_whole(arithmetic::sum::sum(format, d, a, b)),
        16 => mark_whole(arithmetic::sum::difference(format, d, a, b)),
        17 => mark_whole(arithmetic::product::product(format, d, a, b)),
        18 => mark_whole(without_digits(quotient(format, d, a, b))),
        19 => read_decimal32(m),
        20 => pattern_number(write_decimal32(a)),
        21 => digits_number(quotient(format, d, a, b)),
        22 => unmarked(arithmetic::conversion::convert(format, d, a)),
        _ => first_step(fast_two_sum(format, d, d, d, a, b)),
    }
}
