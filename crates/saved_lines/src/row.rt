// The lines nearest to a whole row of queries that ascend: one walk along the list.
ghost use Rattle.std.specs.Prelude.{◌≡◌, ◌≤◌, length, IfOk};
ghost use Rattle.format.specs.Given.{given_at};
ghost use Rattle.binary32.specs.Patterns.{pattern_value, pattern_values};
ghost use Rattle.saved_lines.specs.Offsets.{nearest};
ghost use Rattle.saved_lines.specs.Rows.{looked, row_looked, row_found, Queried, queries_checked, nearest_lines, row_written};

use crate::checks::{Lines, is_descending};
use crate::distances::is_greater_nearer;
use binary32::finite::first_not_finite;
use format::{ListRefusal, Refusal};

// How far a walk went, and how many lines it looked at.
#[derive(Clone, Copy)]
pub struct Walked {
    pub ahead: usize,
    pub looked: usize,
}

impl Lines<'_> {
    // From the first line on to the next while that is nearer: to the nearest.
    fn walk(&self, query: u32) -> Walked
        ensures { (result.ahead ≡ nearest (pattern_values self.now.offsets.now) (pattern_value query)) × (result.looked ≡ looked (pattern_value query) (pattern_values self.now.offsets.now)) }
    {
        let offsets = self.offsets;
        for i in 1..offsets.len() {
            if !is_greater_nearer(offsets[i], offsets[i - 1], query) {
                return Walked {
                    ahead: i - 1,
                    looked: i + 1,
                };
            }
        }
        Walked {
            ahead: offsets.len() - 1,
            looked: offsets.len(),
        }
    }

    // Each query's position into out, and the lines looked at. The rest of the list from the line just found is handed on. `out` by index: of
    // a slice that `zip` lent a proof knows the length alone.
    fn walk_row(&self, queries: &[u32], out: &mut [u32]) -> usize
        requires { Queried queries.now × (length queries.now ≡ length out.old) × (length queries.now ≤ 4096) }
        ensures count { result ≡ row_looked (pattern_values self.now.offsets.now) 0 (pattern_values queries.now) }
        ensures written { out.new ≡ row_found (pattern_values self.now.offsets.now) (pattern_values queries.now) }
    {
        let mut at = 0;
        let mut count = 0;
        for (i, query) in queries.iter().enumerate() {
            let rest = Lines {
                offsets: &self.offsets[at..],
            };
            let steps = rest.walk(*query);
            at += steps.ahead;
            count += steps.looked;
            out[i] = at as u32;
        }
        count
    }
}

// The checks of the queries: 9 with its index, 16.
fn check_queries(queries: &[u32]) -> Result<(), ListRefusal>
    ensures answer { given_at result ≡ queries_checked queries.now }
    ensures passed { IfOk result (λ _. Queried queries.now) }
{
    let bad = first_not_finite(queries);
    if bad < queries.len() {
        return Err(ListRefusal::Entry(Refusal::NotFinite, bad));
    }
    if is_descending(queries) {
        return Err(ListRefusal::Whole(Refusal::QueriesDescend));
    }
    Ok(())
}

// The positions of the lines nearest to the queries into out, and the number of lines looked at. Refuses 11; 12, 9 (with its index), 13,
// 15 of the list; 9 (with its index), 16 of the queries.
pub fn nearest_lines(offsets: &[u32], queries: &[u32], out: &mut [u32]) -> Result<u32, ListRefusal>
    ensures answer { given_at result ≡ nearest_lines offsets.now queries.now (length out.old) }
    ensures written { out.new ≡ row_written (given_at result) offsets.now queries.now out.old }
{
    if queries.len() != out.len() || 4096 < queries.len() {
        return Err(ListRefusal::Whole(Refusal::LengthsDiffer));
    }
    let lines = Lines::checked(offsets, true)?;
    check_queries(queries)?;
    Ok(lines.walk_row(queries, out) as u32)
}
