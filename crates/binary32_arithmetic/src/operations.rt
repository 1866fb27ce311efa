// The four operations on patterns, with their marks. Each is a function of its own, so that the format and the operation are constants in
// it; one that takes the operation would state of it, in clauses on its calls, more than the two lines that each has.
ghost use Rattle.std.specs.Prelude.{◌≡◌, true, Ok};
ghost use Rattle.format.specs.Given.{given};
ghost use Rattle.format.specs.Published.{binary32};
ghost use Rattle.number.specs.Numbers.{member};
ghost use Rattle.arithmetic.specs.declared.Rounded.{Rounded};
ghost use Rattle.binary32_arithmetic.specs.Calls.{call_read, pattern_alone, rounded_written, pattern_call, Sum, Difference, Product, Quotient};

use crate::MarkedPattern;
use arithmetic::Rounded;
use arithmetic::product::multiply;
use arithmetic::quotient::divide;
use arithmetic::sum::{marked_difference, marked_sum};
use binary32::finite::are_finite;
use binary32::patterns::{pattern_of, read_finite};
use binary32::prepared::prepared_binary32;
use format::Refusal;
use number::Number;
use theory::Direction;

// What a call on two patterns is given: its direction and the numbers of the patterns. Refuses 2, 9.
fn read_call(direction: u32, a: u32, b: u32) -> Result<(Direction, Number, Number), Refusal>
    ensures { result ≡ call_read direction a b }
{
    let Ok(direction) = Direction::try_from(direction) else {
        return Err(Refusal::NoSuchDirection);
    };
    if !are_finite(a, b) {
        return Err(Refusal::NotFinite);
    }
    Ok((direction, read_finite(a), read_finite(b)))
}

// A result with its number written.
pub fn write_rounded(answer: Result<Rounded, Refusal>) -> Result<MarkedPattern, Refusal>
    requires { (x : Rounded) → answer ≡ Ok x → member binary32 x.number ≡ true }
    ensures { given result ≡ rounded_written (given answer) }
{
    let rounded = answer?;
    Ok(MarkedPattern {
        pattern: pattern_of(rounded.number),
        mark: rounded.mark,
    })
}

// The pattern without its mark, as the exports for C answer it.
pub fn without_mark(answer: Result<MarkedPattern, Refusal>) -> Result<u32, Refusal>
    ensures { given result ≡ pattern_alone (given answer) }
{
    Ok(answer?.pattern)
}

// a + b. Refuses 2, 9, 5.
pub fn pattern_sum(direction: u32, a: u32, b: u32) -> Result<MarkedPattern, Refusal>
    ensures { given result ≡ pattern_call Sum direction a b }
{
    let (d, x, y) = read_call(direction, a, b)?;
    write_rounded(marked_sum(prepared_binary32(), d, x, y))
}

// a - b. Refuses 2, 9, 5.
pub fn pattern_difference(direction: u32, a: u32, b: u32) -> Result<MarkedPattern, Refusal>
    ensures { given result ≡ pattern_call Difference direction a b }
{
    let (d, x, y) = read_call(direction, a, b)?;
    write_rounded(marked_difference(prepared_binary32(), d, x, y))
}

// a * b. Refuses 2, 9, 5.
pub fn pattern_product(direction: u32, a: u32, b: u32) -> Result<MarkedPattern, Refusal>
    ensures { given result ≡ pattern_call Product direction a b }
{
    let (d, x, y) = read_call(direction, a, b)?;
    write_rounded(multiply(prepared_binary32(), d, x, y))
}

// a / b. Refuses 2, 9, 4, 5.
pub fn pattern_quotient(direction: u32, a: u32, b: u32) -> Result<MarkedPattern, Refusal>
    ensures { given result ≡ pattern_call Quotient direction a b }
{
    let (d, x, y) = read_call(direction, a, b)?;
    write_rounded(divide(prepared_binary32(), d, x, y))
}
