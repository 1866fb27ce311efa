// The line nearest to a query.
ghost use Rattle.std.specs.Prelude.{◌≡◌};
ghost use Rattle.format.specs.Given.{given_at};
ghost use Rattle.binary32.specs.Patterns.{pattern_value, pattern_values};
ghost use Rattle.saved_lines.specs.Offsets.{nearest};
ghost use Rattle.saved_lines.specs.Lines.{nearest_line};

use crate::checks::Lines;
use crate::distances::is_greater_nearer;
use binary32::finite::is_finite;
use binary32::order::is_below;
use format::ListRefusal;

impl Lines<'_> {
    // The position: the first offset from the query on, or the one before it.
    fn nearest(&self, query: u32) -> usize
        ensures { result ≡ nearest (pattern_values self.now.offsets.now) (pattern_value query) }
    {
        let offsets = self.offsets;
        let next = offsets.partition_point(|v| is_below(*v, query));
        if next == 0 {
            return 0;
        }
        if next < offsets.len() && is_greater_nearer(offsets[next], offsets[next - 1], query) {
            return next;
        }
        next - 1
    }
}

// The position of the saved offset nearest to the query. Refuses 12, 9 (in the list with its index), 13, 15.
pub fn nearest_line(offsets: &[u32], query: u32) -> Result<u32, ListRefusal>
    ensures { given_at result ≡ nearest_line offsets.now query }
{
    let lines = Lines::checked(offsets, is_finite(query))?;
    Ok(lines.nearest(query) as u32)
}
