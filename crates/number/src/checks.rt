// The checks that every call begins with, in the order of their refusals: the format, the directions, the numbers. An operation makes its
// checks itself: a function for all four took some 30 instructions more.
ghost use Rattle.std.specs.Prelude.{◌≡◌, [], ◌∷◌};
ghost use Rattle.format.specs.declared.Prepared.{Prepared};
ghost use Rattle.format.specs.declared.Refusal.TheVariants.{NumberNotInFormat};
ghost use Rattle.format.specs.Given.{gives, given};
ghost use Rattle.number.specs.Checks.{checked, entered, directed, further, member_of};

use crate::Number;
use crate::members::is_member;
use format::admission::prepare;
use format::{Format, Prepared, Refusal};
use theory::Direction;

// One number more, in a format that was prepared: the refusal of the checks before, or 3.
pub fn with_number(before: Result<Prepared, Refusal>, x: Number) -> Result<Prepared, Refusal>
    ensures { result ≡ further NumberNotInFormat (λ (q : Prepared). member_of q x) before }
{
    let prepared = before?;
    if !is_member(prepared, x) {
        return Err(Refusal::NumberNotInFormat);
    }
    Ok(prepared)
}

// A format and one number.
pub fn enter(format: Format, x: Number) -> Result<Prepared, Refusal>
    ensures { result ≡ entered format [] (x ∷ []) }
{
    with_number(prepare(format), x)
}

// A format and two numbers.
pub fn enter_two(format: Format, a: Number, b: Number) -> Result<Prepared, Refusal>
    ensures { result ≡ entered format [] (a ∷ b ∷ []) }
{
    with_number(enter(format, b), a)
}

// A format and a direction. As a function that is called it costs a call some 15 instructions more.
#[inline(always)]
pub fn enter_directed(format: Format, direction: u32) -> Result<(Prepared, Direction), Refusal>
    ensures { result ≡ directed format direction [] }
{
    let prepared = prepare(format)?;
    let direction = Direction::try_from(direction)?;
    Ok((prepared, direction))
}

// Is x in the format? Refuses 1, 3. Not by `enter`, which as a function that is called costs it 55 instructions more.
pub fn check_number(format: Format, x: Number) -> Result<(), Refusal>
    ensures { given result ≡ checked format [] (x ∷ []) (gives (tt {0})) }
{
    with_number(prepare(format), x)?;
    Ok(())
}
