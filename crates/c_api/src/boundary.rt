// The sum of a boundary's strips, for C.
ghost use Rattle.std.specs.Prelude.{◌≡◌};
ghost use Rattle.boundaries.specs.Sums.{boundary_answer, boundary_rests};
ghost use Rattle.c_api.specs.Answers.{count_out};

use crate::answers::{IndexedOut, count_out};
use boundaries::sum::boundary_sum;

// The strips summed from the first on; each y into rests. Refuses 18, 11, 2, and 9 and 5 with the index of a strip; a refused call
// leaves rests as it was.
#[unsafe(no_mangle)]
pub extern "C" fn zurkeb_boundary_sum(
    strips: &[u32],
    rests: &mut [u32],
    direction: u32,
) -> IndexedOut
    ensures answer { result ≡ count_out (boundary_answer direction strips.now rests.old) }
    ensures written { rests.new ≡ boundary_rests direction strips.now rests.old }
{
    let answer = boundary_sum(direction, strips, rests);
    count_out(answer)
}
