// The calmer of two logs in a stretch, for C, where no part of a slice can be handed back.
ghost use Rattle.std.specs.Prelude.{◌≡◌};
ghost use Rattle.receivers.specs.Stretches.{calmer_log};
ghost use Rattle.c_api.specs.Answers.{stretch_out};

use crate::answers::{StretchOut, stretch_out};
use receivers::stretch::calmer_log;

// Which log is calmer in the stretch: 1 or 2. Refuses 11, 17, and 9 with its index in the log.
#[unsafe(no_mangle)]
pub extern "C" fn zurkeb_calmer_stretch(
    first: &[u32],
    second: &[u32],
    start: usize,
    length: usize,
) -> StretchOut
    ensures { result ≡ stretch_out (calmer_log first.now second.now start length) }
{
    stretch_out(calmer_log(first, second, start, length))
}
