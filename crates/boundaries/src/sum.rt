// The sum of the strips in three passes: the first looks for a strip that is not finite, the second for one that makes the sum too
// large, and only the third writes.
ghost use Rattle.std.specs.Prelude.{◌≡◌, suc, length};
ghost use Rattle.format.specs.Given.{given_at};
ghost use Rattle.boundaries.specs.Steps.{Summable};
ghost use Rattle.boundaries.specs.Sums.{boundary_steps, last_x, rests_of, first_of, boundary_answer, boundary_rests};

use crate::small::are_small;
use crate::steps::{add_first, add_strip};
use binary32::finite::first_not_finite;
use format::{ListRefusal, Refusal};
use theory::Direction;

// How many strips are added: the index of the one that makes the sum too large, or all. Small strips are not added here.
fn first_too_large(direction: Direction, strips: &[u32]) -> usize
    requires { Summable strips.now }
    ensures { result ≡ suc (length (boundary_steps direction strips.now)) }
{
    if are_small(strips) {
        return strips.len();
    }
    let mut x = strips[0];
    for (i, &strip) in strips[1..].iter().enumerate() {
        let Ok(next) = add_first(direction, x, strip) else {
            return i + 1;
        };
        x = next;
    }
    strips.len()
}

// The last x, and each y into `rests`, where no strip makes the sum too large.
fn write_rests(direction: Direction, strips: &[u32], rests: &mut [u32]) -> u32
    requires summable { Summable strips.now }
    requires rests_length { (suc (length rests.old) ≡ length strips.now) × (length (boundary_steps direction strips.now) ≡ length rests.old) }
    ensures sum { result ≡ last_x (first_of strips.now) (boundary_steps direction strips.now) }
    ensures written { rests.new ≡ rests_of (boundary_steps direction strips.now) }
{
    let mut x = strips[0];
    // no zip with the strips: a proof knows nothing of entries that are written through `iter_mut().zip(..)`
    for (done, rest) in rests.iter_mut().enumerate() {
        let Some(t) = add_strip(direction, x, strips[done + 1]) else {
            return x;
        };
        *rest = t.y;
        x = t.x;
    }
    x
}

// The strips summed from the first on; each y into `rests`. Refuses 18, 11, 2, and 9 and 5 with the index of a strip; a refused
// call leaves `rests` as it was, since nothing is written before every refusal is ruled out.
pub fn boundary_sum(direction: u32, strips: &[u32], rests: &mut [u32]) -> Result<u32, ListRefusal>
    ensures answer { given_at result ≡ boundary_answer direction strips.now rests.old }
    ensures written { rests.new ≡ boundary_rests direction strips.now rests.old }
{
    if !(1..=4096).contains(&strips.len()) {
        return Err(Refusal::StripCount.into());
    }
    if strips.len() - 1 != rests.len() {
        return Err(Refusal::LengthsDiffer.into());
    }
    let Ok(direction) = Direction::try_from(direction) else {
        return Err(Refusal::NoSuchDirection.into());
    };
    let finite = first_not_finite(strips);
    if finite < strips.len() {
        return Err(ListRefusal::Entry(Refusal::NotFinite, finite));
    }
    let large = first_too_large(direction, strips);
    if large != strips.len() {
        return Err(ListRefusal::Entry(Refusal::TooLarge, large));
    }
    Ok(write_rests(direction, strips, rests))
}
