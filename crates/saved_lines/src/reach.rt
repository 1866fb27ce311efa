// All lines within a distance of a query, the nearest first.
ghost use Rattle.std.specs.Prelude.{◌≡◌, ◌++◌, ◌+◌, ◌-◌, ◌≤◌, ◌<◌, length, drop};
ghost use Rattle.format.specs.Given.{given_at};
ghost use Rattle.binary32.specs.Patterns.{pattern_value, pattern_values};
ghost use Rattle.saved_lines.specs.Offsets.{nearest_first};
ghost use Rattle.saved_lines.specs.Positions.{range};
ghost use Rattle.saved_lines.specs.Lines.{lines_in_order, lines_within, within_written};
ghost use Rattle.saved_lines.specs.Walks.{Walk, Next, Around};

use crate::checks::Lines;
use crate::distances::is_greater_nearer;
use binary32::finite::are_finite;
use binary32::order::is_below;
use exact_sums::sums::sums_upto;
use format::{ListRefusal, Refusal};

// A walk outward from a query, at the lines from `first` up to `left`, all below the query, and from `right` up to `end`.
#[derive(Clone, Copy)]
pub struct Outward<'a> {
    pub lines: Lines<'a>,
    pub query: u32,
    pub first: usize,
    pub left: usize,
    pub right: usize,
    pub end: usize,
}

impl<'a> Lines<'a> {
    // The lines within reach stand side by side: those below the query from the first that reaches it on, and those from the query on up to
    // the first beyond reach. A distance below zero leaves none of either.
    fn within(self, query: u32, distance: u32) -> Outward<'a>
        ensures lent { (result.lines.offsets.now ≡ self.entry.offsets.now) × (result.query ≡ query) }
        ensures found { Around self.entry.offsets.now query distance result.first result.left result.end × (result.right ≡ result.left) }
    {
        let offsets = self.offsets;
        let split = offsets.partition_point(|v| is_below(*v, query));
        let first = offsets[..split].partition_point(|v| !sums_upto(query, 0, *v, distance));
        let end = split + offsets[split..].partition_point(|v| sums_upto(*v, 0, query, distance));
        Outward {
            lines: self,
            query,
            first,
            left: split,
            right: split,
            end,
        }
    }
}

impl Outward<'_> {
    // The nearest line that is left: the one before `left`, unless the one at `right` is nearer.
    fn nearest(&self) -> usize
        requires { Walk self.now.lines.offsets.now self.now.query self.now.first self.now.left self.now.right self.now.end × (self.now.first + self.now.right < self.now.left + self.now.end) }
        ensures { Next self.now.lines.offsets.now self.now.query self.now.first self.now.left self.now.right self.now.end result }
    {
        let offsets = self.lines.offsets;
        let left = self.left;
        let right = self.right;
        if left == self.first {
            return right;
        }
        if right < self.end && is_greater_nearer(offsets[right], offsets[left - 1], self.query) {
            return right;
        }
        left - 1
    }

    // All its lines into the first entries of out, the nearest first.
    fn write(mut self, out: &mut [u32])
        requires { Walk self.lines.offsets.now self.query self.first self.left self.right self.end × (self.right ≡ self.left) × (self.end - self.first ≤ length out.old) }
        ensures { out.new ≡ nearest_first (pattern_values self.entry.lines.offsets.now) (pattern_value self.entry.query) (range self.entry.first (self.entry.end - self.entry.first)) ++ drop (self.entry.end - self.entry.first) out.old }
    {
        for place in &mut out[..self.end - self.first] {
            let next = self.nearest();
            *place = next as u32;
            if next < self.left {
                self.left = next;
            } else {
                self.right = next + 1;
            }
        }
    }
}

// The positions of all lines within the distance into out, the nearest first, and how many. Refuses 12, 9 (in the list with its
// index), 13, 15, 14.
pub fn lines_within(
    offsets: &[u32],
    query: u32,
    distance: u32,
    out: &mut [u32],
) -> Result<u32, ListRefusal>
    ensures answer { given_at result ≡ lines_within offsets.now query distance (length out.old) }
    ensures written { out.new ≡ within_written (given_at result) (lines_in_order offsets.now query distance) out.old }
{
    let lines = Lines::checked(offsets, are_finite(query, distance))?;
    let found = lines.within(query, distance);
    let count = found.end - found.first;
    if out.len() < count {
        return Err(ListRefusal::Whole(Refusal::OutTooShort));
    }
    found.write(out);
    Ok(count as u32)
}
