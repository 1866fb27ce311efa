// The three-step sum.
ghost use Rattle.std.specs.Prelude.{◌≡◌};
ghost use Rattle.format.specs.Given.{refused, given, ◌then◌};
ghost use Rattle.number.specs.Checks.{Operands};
ghost use Rattle.fast_two_sum.specs.Calls.{three_steps, fast_two_sum};

use crate::Steps;
use crate::entry::check_order;
use arithmetic::sum::{add, subtract};
use format::{Format, Prepared, Refusal};
use number::Number;
use number::checks::{enter_directed, with_number};
use theory::Direction;

// The three steps on a prepared format. They end at the first that refuses.
pub fn three_steps(
    prepared: Prepared,
    first: Direction,
    second: Direction,
    third: Direction,
    a: Number,
    b: Number,
) -> Result<Steps, Refusal>
    requires { Operands prepared a b }
    ensures { given result ≡ three_steps prepared.format first second third a b }
{
    let sum = add(prepared, first, a, b);
    let Ok(x) = sum else {
        return refused_step(sum);
    };
    let difference = subtract(prepared, second, x, a);
    let Ok(z) = difference else {
        return refused_step(difference);
    };
    let rest = subtract(prepared, third, b, z);
    let Ok(y) = rest else {
        return refused_step(rest);
    };
    Ok(Steps { x, z, y })
}

// The refusal of a step.
fn refused_step(step: Result<Number, Refusal>) -> Result<Steps, Refusal>
    ensures { given result ≡ given step then (λ x. refused 5) }
{
    match step {
        Err(why) => Err(why),
        Ok(_) => Err(Refusal::TooLarge),
    }
}

// a + b in three steps, each rounded in its own direction. Refuses 1, 2, 3, 6, 7, 5.
pub fn fast_two_sum(
    format: Format,
    first: u32,
    second: u32,
    third: u32,
    a: Number,
    b: Number,
) -> Result<Steps, Refusal>
    ensures { given result ≡ fast_two_sum format first second third a b }
{
    let (prepared, third) = enter_directed(format, third)?;
    let second = Direction::try_from(second)?;
    let first = Direction::try_from(first)?;
    let prepared = with_number(with_number(Ok(prepared), b), a)?;
    check_order(format, a, b)?;
    three_steps(prepared, first, second, third, a, b)
}
