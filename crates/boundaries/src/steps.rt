// One step: a strip is added to the running sum. Both are finite and the format is prepared, so nothing is examined again.
ghost use Rattle.std.specs.Prelude.{◌≡◌, true};
ghost use Rattle.format.specs.Given.{given};
ghost use Rattle.format.specs.Published.{binary32};
ghost use Rattle.number.specs.Numbers.{member};
ghost use Rattle.binary32.specs.Patterns.{finite};
ghost use Rattle.boundaries.specs.Sums.{three_sum, strip_added};
ghost use Rattle.boundaries.specs.Steps.{first_step};

use crate::Step;
use arithmetic::sum::add;
use binary32::patterns::{pattern_of, read_finite, write_answer};
use binary32::prepared::prepared_binary32;
use fast_two_sum::Steps;
use fast_two_sum::sum::three_steps;
use format::Refusal;
use number::Number;
use number::order::compare_magnitudes;
use theory::Direction;

// x + s in three steps: the larger magnitude first, x first at equality.
fn three_sum(direction: Direction, x: Number, s: Number) -> Result<Steps, Refusal>
    requires { (member binary32 x ≡ true) × (member binary32 s ≡ true) }
    ensures { given result ≡ three_sum direction x s }
{
    let prepared = prepared_binary32();
    let (larger, smaller) = if compare_magnitudes(prepared.format, x, s).is_lt() {
        (s, x)
    } else {
        (x, s)
    };
    three_steps(prepared, direction, direction, direction, larger, smaller)
}

// The strip added to the running sum x, unless x is then too large.
pub fn add_strip(direction: Direction, x: u32, strip: u32) -> Option<Step>
    requires { (finite x ≡ true) × (finite strip ≡ true) }
    ensures { result ≡ strip_added direction x strip }
{
    let steps = three_sum(direction, read_finite(x), read_finite(strip)).ok()?;
    Some(Step {
        x: pattern_of(steps.x),
        y: pattern_of(steps.y),
    })
}

// x of that step alone: the first of the three steps, the only one that may be too large.
pub fn add_first(direction: Direction, x: u32, strip: u32) -> Result<u32, Refusal>
    requires { (finite x ≡ true) × (finite strip ≡ true) }
    ensures { given result ≡ first_step direction x strip }
{
    write_answer(add(
        prepared_binary32(),
        direction,
        read_finite(x),
        read_finite(strip),
    ))
}
