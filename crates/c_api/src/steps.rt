// The three-step sum and its check, for C.
ghost use Rattle.std.specs.Prelude.{◌≡◌};
ghost use Rattle.fast_two_sum.specs.Calls.{fast_two_sum};
ghost use Rattle.fast_two_sum.specs.Checks.{checked_triple};
ghost use Rattle.c_api.specs.Answers.{number_in, check_out, triple_out};

use crate::answers::{CNumber, CheckOut, TripleOut, check_out, triple_out};
use fast_two_sum::check::is_fast_two_sum;
use fast_two_sum::sum::fast_two_sum;
use format::Format;

// a + b in three steps. Refuses 1, 2, 3, 6, 7, 5.
#[unsafe(no_mangle)]
pub extern "C" fn zurkeb_fast_two_sum(
    format: Format,
    first: u32,
    second: u32,
    third: u32,
    a: CNumber,
    b: CNumber,
) -> TripleOut
    ensures { result ≡ triple_out (fast_two_sum format first second third (number_in a) (number_in b)) }
{
    triple_out(fast_two_sum(format, first, second, third, a.into(), b.into()))
}

// Are x, z and y faithful to a + b, x - a and b - z? Refuses 1, 3, 6, 7.
#[unsafe(no_mangle)]
pub extern "C" fn zurkeb_is_fast_two_sum(
    format: Format,
    a: CNumber,
    b: CNumber,
    x: CNumber,
    z: CNumber,
    y: CNumber,
) -> CheckOut
    ensures { result ≡ check_out (checked_triple format (number_in a) (number_in b) (number_in x) (number_in z) (number_in y)) }
{
    check_out(is_fast_two_sum(format, a.into(), b.into(), x.into(), z.into(), y.into()))
}
