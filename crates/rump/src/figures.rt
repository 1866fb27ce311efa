// Rump's figures, line by line: the first place toward zero (figure 1), the last place up (figure 3), toward zero (figure 4), and
// toward zero without a test (figure 5).
ghost use Rattle.std.specs.Prelude.{◌≡◌};
ghost use Rattle.format.specs.Given.{given};
ghost use Rattle.number.specs.Checks.{Operands};
ghost use Rattle.rump.specs.Figures as figures;
ghost use Rattle.rump.specs.Figures.{defect, figure1, figure3, figure4, figure5};
ghost use Rattle.rump.specs.Premises.{Run};
ghost use Rattle.rump.specs.Routes.{figure_of};

use crate::Figure;
use crate::constants::{power, subrealmin};
use arithmetic::product::multiply;
use arithmetic::sum::{add, subtract};
use format::{Prepared, Refusal};
use number::Number;
use number::order::same_value;
use theory::Direction;

// Figure 1: p1 = 1 - subrealmin, phi = base^(p - 1) + 1, q = phi * x, S = q - p1 * q.
fn first_figure(prepared: Prepared, x: Number) -> Result<Number, Refusal>
    requires { Run prepared x }
    ensures { given result ≡ figure1 prepared.format x }
{
    let direction = Direction::TowardZero;
    let one = power(prepared, 0);
    let p1 = subtract(prepared, direction, one, subrealmin(prepared))?;
    let lead = power(prepared, prepared.scale.digits - 1);
    let phi = add(prepared, direction, lead, one)?;
    let q = multiply(prepared, direction, phi, x)?.number;
    let r = multiply(prepared, direction, p1, q)?.number;
    subtract(prepared, direction, q, r)
}

// Figure 3: s = x + subrealmin, S = s - x, rounded up.
fn third_figure(prepared: Prepared, x: Number) -> Result<Number, Refusal>
    requires { Run prepared x }
    ensures { given result ≡ figure3 prepared.format x }
{
    let direction = Direction::Upward;
    let s = add(prepared, direction, x, subrealmin(prepared))?;
    subtract(prepared, direction, s, x)
}

// Figures 4 and 5, lines 3 and 4: p = x - subrealmin, S = x - p.
fn gap(prepared: Prepared, x: Number) -> Result<Number, Refusal>
    requires { Run prepared x }
    ensures { given result ≡ figures.gap prepared.format x }
{
    let direction = Direction::TowardZero;
    let p = subtract(prepared, direction, x, subrealmin(prepared))?;
    subtract(prepared, direction, x, p)
}

// Figure 4: S * base where x + S gives x, and S elsewhere.
fn fourth_figure(prepared: Prepared, x: Number) -> Result<Number, Refusal>
    requires { Run prepared x }
    ensures { given result ≡ figure4 prepared.format x }
{
    let direction = Direction::TowardZero;
    let s = gap(prepared, x)?;
    let next = add(prepared, direction, x, s)?;
    if same_value(prepared.format, next, x) {
        let factor = power(prepared, 1);
        return Ok(multiply(prepared, direction, s, factor)?.number);
    }
    Ok(s)
}

// Figure 5, lines 5 and 6: d = ((x + S) - x) - S.
fn gap_defect(prepared: Prepared, x: Number, s: Number) -> Result<Number, Refusal>
    requires { Operands prepared x s }
    ensures { given result ≡ defect prepared.format x s }
{
    let direction = Direction::TowardZero;
    let raised = add(prepared, direction, x, s)?;
    let back = subtract(prepared, direction, raised, x)?;
    subtract(prepared, direction, back, s)
}

// Figure 5: S - (base - 1) * d.
fn fifth_figure(prepared: Prepared, x: Number) -> Result<Number, Refusal>
    requires { Run prepared x }
    ensures { given result ≡ figure5 prepared.format x }
{
    let direction = Direction::TowardZero;
    let s = gap(prepared, x)?;
    let d = gap_defect(prepared, x, s)?;
    let base = power(prepared, 1);
    let b = subtract(prepared, direction, base, power(prepared, 0))?;
    let c = multiply(prepared, direction, b, d)?.number;
    subtract(prepared, direction, s, c)
}

pub fn run(figure: Figure, prepared: Prepared, x: Number) -> Result<Number, Refusal>
    requires { Run prepared x }
    ensures { given result ≡ figure_of figure prepared.format x }
{
    match figure {
        Figure::First => first_figure(prepared, x),
        Figure::Third => third_figure(prepared, x),
        Figure::Fourth => fourth_figure(prepared, x),
        Figure::Fifth => fifth_figure(prepared, x),
    }
}
