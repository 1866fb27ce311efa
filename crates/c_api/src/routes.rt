// Rump's routes, for C.
ghost use Rattle.std.specs.Prelude.{◌≡◌};
ghost use Rattle.rump.specs.Routes.{ufp_toward_zero, ulp_upward, ulp_toward_zero, ulp_unbranched, ufp_by_successor, ulp_by_successor};
ghost use Rattle.c_api.specs.Answers.{number_in, number_out};

use crate::answers::{CNumber, NumberOut, number_out};
use format::Format;
use rump::routes::{
    ufp_by_successor, ufp_toward_zero, ulp_by_successor, ulp_toward_zero,
    ulp_toward_zero_unbranched, ulp_upward,
};

// The first place by figure 1. Refuses 1, 3, 8.
#[unsafe(no_mangle)]
pub extern "C" fn zurkeb_ufp_toward_zero(format: Format, x: CNumber) -> NumberOut
    ensures { result ≡ number_out (ufp_toward_zero format (number_in x)) }
{
    number_out(ufp_toward_zero(format, x.into()))
}

// The last place by figure 3. Refuses 1, 3, 8.
#[unsafe(no_mangle)]
pub extern "C" fn zurkeb_ulp_upward(format: Format, x: CNumber) -> NumberOut
    ensures { result ≡ number_out (ulp_upward format (number_in x)) }
{
    number_out(ulp_upward(format, x.into()))
}

// The last place by figure 4. Refuses 1, 3, 8.
#[unsafe(no_mangle)]
pub extern "C" fn zurkeb_ulp_toward_zero(format: Format, x: CNumber) -> NumberOut
    ensures { result ≡ number_out (ulp_toward_zero format (number_in x)) }
{
    number_out(ulp_toward_zero(format, x.into()))
}

// The last place by figure 5. Refuses 1, 3, 8.
#[unsafe(no_mangle)]
pub extern "C" fn zurkeb_ulp_toward_zero_unbranched(format: Format, x: CNumber) -> NumberOut
    ensures { result ≡ number_out (ulp_unbranched format (number_in x)) }
{
    number_out(ulp_toward_zero_unbranched(format, x.into()))
}

// The first place by figure 6, in any direction. Refuses 1, 2, 3, 8.
#[unsafe(no_mangle)]
pub extern "C" fn zurkeb_ufp_by_successor(format: Format, direction: u32, x: CNumber) -> NumberOut
    ensures { result ≡ number_out (ufp_by_successor format direction (number_in x)) }
{
    number_out(ufp_by_successor(format, direction, x.into()))
}

// The last place by figure 3 with the successor, in any direction. Refuses 1, 2, 3, 8.
#[unsafe(no_mangle)]
pub extern "C" fn zurkeb_ulp_by_successor(format: Format, direction: u32, x: CNumber) -> NumberOut
    ensures { result ≡ number_out (ulp_by_successor format direction (number_in x)) }
{
    number_out(ulp_by_successor(format, direction, x.into()))
}
