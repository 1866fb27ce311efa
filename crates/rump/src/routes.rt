// Rump's routes: the checks, the premise, then the figure on |x|.
ghost use Rattle.std.specs.Prelude.{◌≡◌, [], ◌∷◌};
ghost use Rattle.format.specs.Given.{given};
ghost use Rattle.number.specs.Checks.{directed};
ghost use Rattle.rump.specs.Routes as routes;
ghost use Rattle.rump.specs.Routes.{ufp_toward_zero, ulp_upward, ulp_toward_zero, ulp_unbranched, ulp_by_successor, ufp_by_successor};

use crate::Figure;
use crate::figures::run;
use crate::premises::premise_holds;
use crate::successors::{first_by_successor, last_by_successor};
use format::{Format, Prepared, Refusal};
use number::Number;
use number::checks::{enter, enter_directed, with_number};
use number::signs::with_sign;
use theory::Direction;

fn route(figure: Figure, format: Format, x: Number) -> Result<Number, Refusal>
    ensures { given result ≡ routes.route figure format x }
{
    let prepared = enter(format, x)?;
    if !premise_holds(figure, prepared, x) {
        return Err(Refusal::PremiseFails);
    }
    run(figure, prepared, with_sign(x, false))
}

// ufp(x) by operations alone, rounded toward zero. Refuses 1, 3, 8.
pub fn ufp_toward_zero(format: Format, x: Number) -> Result<Number, Refusal>
    ensures { given result ≡ ufp_toward_zero format x }
{
    route(Figure::First, format, x)
}

// ulp(x) by operations alone, rounded up. Refuses 1, 3, 8.
pub fn ulp_upward(format: Format, x: Number) -> Result<Number, Refusal>
    ensures { given result ≡ ulp_upward format x }
{
    route(Figure::Third, format, x)
}

// ulp(x) by operations alone, rounded toward zero. Refuses 1, 3, 8.
pub fn ulp_toward_zero(format: Format, x: Number) -> Result<Number, Refusal>
    ensures { given result ≡ ulp_toward_zero format x }
{
    route(Figure::Fourth, format, x)
}

// The same without a test. Refuses 1, 3, 8.
pub fn ulp_toward_zero_unbranched(format: Format, x: Number) -> Result<Number, Refusal>
    ensures { given result ≡ ulp_unbranched format x }
{
    route(Figure::Fifth, format, x)
}

// A format, a direction and one number. As a function that is called it costs a route some 30 instructions more.
#[inline(always)]
fn enter_directed_number(
    format: Format,
    direction: u32,
    x: Number,
) -> Result<(Prepared, Direction), Refusal>
    ensures { result ≡ directed format direction (x ∷ []) }
{
    let (prepared, direction) = enter_directed(format, direction)?;
    let prepared = with_number(Ok(prepared), x)?;
    Ok((prepared, direction))
}

// ulp(x) by the successor and a difference, in any direction. Refuses 1, 2, 3, 8.
pub fn ulp_by_successor(format: Format, direction: u32, x: Number) -> Result<Number, Refusal>
    ensures { given result ≡ ulp_by_successor format direction x }
{
    let (prepared, direction) = enter_directed_number(format, direction, x)?;
    last_by_successor(prepared, direction, with_sign(x, false))
}

// ufp(x) by a product, the successor and a difference, in any direction. Refuses 1, 2, 3, 8.
pub fn ufp_by_successor(format: Format, direction: u32, x: Number) -> Result<Number, Refusal>
    ensures { given result ≡ ufp_by_successor format direction x }
{
    let (prepared, direction) = enter_directed_number(format, direction, x)?;
    first_by_successor(prepared, direction, with_sign(x, false))
}
