// The checks of a list of offsets, and the list that passed them: its length (12), its patterns (9), the numbers beside it (9), its order
// (13), equal neighbours (15).
ghost use Rattle.std.specs.Prelude.{◌≡◌, IfOk};
ghost use Rattle.format.specs.Given.{given_at, ◌then◌};
ghost use Rattle.binary32.specs.Patterns.{pattern_values};
ghost use Rattle.saved_lines.specs.Offsets.{descends, repeats};
ghost use Rattle.saved_lines.specs.Lines.{Checked, passed, lines_checked};

use binary32::finite::first_not_finite;
use binary32::order::{is_below, is_equal};
use format::{ListRefusal, Refusal};

// A list of offsets that passed the checks.
#[derive(Clone, Copy)]
pub struct Lines<'a> {
    pub offsets: &'a [u32],
    ghost checked: { Checked offsets.now },
}

// Is some offset above the next?
pub(crate) fn is_descending(offsets: &[u32]) -> bool
    ensures { result ≡ descends (pattern_values offsets.now) }
{
    !offsets.is_sorted_by(|v, w| !is_below(*w, *v))
}

// Is some offset equal to the next?
fn is_repeating(offsets: &[u32]) -> bool
    ensures { result ≡ repeats (pattern_values offsets.now) }
{
    !offsets.is_sorted_by(|v, w| !is_equal(*v, *w))
}

impl<'a> Lines<'a> {
    // The list after all checks, in their order. `finite`: are the numbers beside it finite?
    pub(crate) fn checked(offsets: &'a [u32], finite: bool) -> Result<Self, ListRefusal>
        ensures answer { (given_at result then λ _. passed) ≡ lines_checked offsets.now finite }
        ensures list { IfOk result (λ lines. lines.offsets.now ≡ offsets.now) }
    {
        if offsets.is_empty() || 4096 < offsets.len() {
            return Err(ListRefusal::Whole(Refusal::ListLength));
        }
        let bad = first_not_finite(offsets);
        if bad < offsets.len() {
            return Err(ListRefusal::Entry(Refusal::NotFinite, bad));
        }
        if !finite {
            return Err(ListRefusal::Whole(Refusal::NotFinite));
        }
        if is_descending(offsets) {
            return Err(ListRefusal::Whole(Refusal::ListDescends));
        }
        if is_repeating(offsets) {
            return Err(ListRefusal::Whole(Refusal::ListRepeats));
        }
        Ok(Lines { offsets })
    }
}
