// Two slices of patterns summed entry by entry into a third. The first pass looks for a refused entry, the second writes.
ghost use Rattle.std.specs.Prelude.{◌≡◌, ◌*◌, ◌%◌, ◌^◌, ltb, length};
ghost use Rattle.theory.specs.Tests.{◌and◌};
ghost use Rattle.format.specs.Directions as directions;
ghost use Rattle.format.specs.Given.{given, given_at};
ghost use Rattle.theory.specs.Marks.{inexact};
ghost use Rattle.binary32_arithmetic.specs.Calls.{on_patterns, Sum};
ghost use Rattle.binary32_arithmetic.specs.Slices.{entry_sum, passes, entries, first_refused, sums, entry_written, inexact_entries, slices_answer, slices_written};

use crate::MarkedPattern;
use crate::operations::write_rounded;
use arithmetic::sum::{add, marked_sum};
use binary32::finite::are_finite;
use binary32::patterns::read_finite;
use binary32::prepared::prepared_binary32;
use format::{ListRefusal, Refusal};
use theory::{Direction, Mark};

// Is the pattern's magnitude at most half the greatest number? Its exponent field is below 254.
fn is_half(pattern: u32) -> bool
    ensures { result ≡ ltb (pattern % 2 ^ 31) (254 * 2 ^ 23) }
{
    pattern % 2147483648 < 2130706432
}

fn are_halves(a: u32, b: u32) -> bool
    ensures { result ≡ ltb (a % 2 ^ 31) (254 * 2 ^ 23) and ltb (b % 2 ^ 31) (254 * 2 ^ 23) }
{
    is_half(a) && is_half(b)
}

// Is an entry refused? Two magnitudes of at most half the greatest number are not.
fn examine(direction: Direction, a: u32, b: u32) -> Result<(), Refusal>
    ensures { given result ≡ passes (entry_sum direction a b) }
{
    if are_halves(a, b) {
        return Ok(());
    }
    if !are_finite(a, b) {
        return Err(Refusal::NotFinite);
    }
    add(
        prepared_binary32(),
        direction,
        read_finite(a),
        read_finite(b),
    )?;
    Ok(())
}

// 1 for a mark that is not exact.
fn inexact_count(mark: Mark) -> usize
    ensures { result ≡ inexact mark }
{
    usize::from(mark != Mark::Exact)
}

// The sum of two entries, as it is written; no entry is refused where this is called.
fn sum_entry(direction: Direction, a: u32, b: u32) -> MarkedPattern
    ensures { result ≡ entry_written (on_patterns Sum direction a b) }
{
    let none = MarkedPattern {
        pattern: 0,
        mark: Mark::Exact,
    };
    if !are_finite(a, b) {
        return none;
    }
    write_rounded(marked_sum(
        prepared_binary32(),
        direction,
        read_finite(a),
        read_finite(b),
    ))
    .unwrap_or(none)
}

// The first pass.
fn first_refused(direction: Direction, a: &[u32], b: &[u32]) -> Result<(), ListRefusal>
    requires { length a.now ≡ length b.now }
    ensures { given_at result ≡ first_refused (entries direction a.now b.now) }
{
    for (index, (&x, &y)) in a.iter().zip(b).enumerate() {
        if let Err(why) = examine(direction, x, y) {
            return Err(ListRefusal::Entry(why, index));
        }
    }
    Ok(())
}

// The second pass: how many entries are not exact. `out` by index: of a slice that `iter_mut` lent a proof knows the length alone.
fn write_sums(direction: Direction, a: &[u32], b: &[u32], out: &mut [u32]) -> usize
    requires b_length { length a.now ≡ length b.now }
    requires out_length { length a.now ≡ length out.old }
    ensures count { result ≡ inexact_entries direction a.now b.now }
    ensures written { out.new ≡ sums direction a.now b.now }
{
    let mut inexact = 0;
    for (i, (&x, &y)) in a.iter().zip(b).enumerate() {
        let entry = sum_entry(direction, x, y);
        out[i] = entry.pattern;
        inexact += inexact_count(entry.mark);
    }
    inexact
}

// a + b entry by entry into out, and how many entries are not exact. Refuses 11, 2, and 9 and 5 with the index of the first refused entry.
pub fn sum_slices(
    direction: u32,
    a: &[u32],
    b: &[u32],
    out: &mut [u32],
) -> Result<usize, ListRefusal>
    ensures answer { given_at result ≡ slices_answer direction a.now b.now out.old }
    ensures written { out.new ≡ slices_written (given_at result) (sums (directions.direction direction) a.now b.now) out.old }
{
    if a.len() != b.len() {
        return Err(ListRefusal::Whole(Refusal::LengthsDiffer));
    }
    if a.len() != out.len() {
        return Err(ListRefusal::Whole(Refusal::LengthsDiffer));
    }
    let Ok(direction) = Direction::try_from(direction) else {
        return Err(ListRefusal::Whole(Refusal::NoSuchDirection));
    };
    first_refused(direction, a, b)?;
    Ok(write_sums(direction, a, b, out))
}
