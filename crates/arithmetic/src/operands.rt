// The powers beside an exact result, and results of the wide format as numbers of the format.
ghost use Rattle.std.specs.Prelude.{◌≡◌};
ghost use Rattle.theory.specs.Wide.{Canonical};
ghost use Rattle.format.specs.Given.{given};
ghost use Rattle.number.specs.Numbers.{delivered};
ghost use Rattle.number.specs.Checks.{Usable};
ghost use Rattle.wide.specs.Operand.{size_of};
ghost use Rattle.arithmetic.specs.Marked.{with_mark, without_mark};

use crate::Rounded;
use format::{Prepared, Refusal};
use number::Number;
use number::delivery::deliver;
use rounding::Rounding;

// The powers of the base beside an exact result: it is taken base ^ up times and divided by base ^ down.
#[derive(Clone, Copy, Debug, PartialEq, Eq, Hash)]
pub struct Powers {
    pub up: u32,
    pub down: u32,
}

// A result as a number of the format, with its mark, or refusal 5 above the greatest number.
pub fn deliver_wide(prepared: Prepared, res: Rounding) -> Result<Rounded, Refusal>
    requires { Usable prepared × Canonical prepared.format.base prepared.format.digits res.wide.significand res.wide.place }
    ensures { given result ≡ with_mark res.mark (delivered prepared.format res.wide.negative (size_of prepared.format.base res.wide)) }
{
    let wide = res.wide;
    let mark = res.mark;
    let number = deliver(prepared, wide.negative, wide.significand, wide.place)?;
    Ok(Rounded { number, mark })
}

// The number without its mark: the three-step sum, its check and the routes go on with it.
pub fn unmarked(answer: Result<Rounded, Refusal>) -> Result<Number, Refusal>
    ensures { given result ≡ without_mark (given answer) }
{
    Ok(answer?.number)
}
