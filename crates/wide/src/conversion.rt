// Any whole number of one word times a power of the base, rounded: the digits below place 0, and those that the format has no room for,
// are dropped one by one, in base 2 all at once.
ghost use Rattle.std.specs.Prelude.{◌≡◌, ◌⊎◌, ℕ, ◌+◌, ◌*◌, ◌<◌, ◌≤◌, ◌^◌};
ghost use Rattle.format.specs.Formats.{Scaled};
ghost use Rattle.rounding.specs.Cut.{cut_of, Rounds};
ghost use Rattle.rounding.specs.Location.{located};
ghost use Rattle.wide.specs.Conversion.{Dropping};

use format::{Scale, Significand};
use rounding::choice::{finish, locate};
use rounding::cutting::exact_cut;
use rounding::digits::bit_count;
use rounding::{Cut, Rounding};
use theory::{Direction, Location};

// What is left when `count` digits are dropped, and the location of these.
#[derive(Clone, Copy)]
pub struct Dropped {
    pub steps: u64,
    pub location: Location,
    pub count: u32,
}

// The location of digit * m + r in m * base, where `lower` is that of r in m: a digit before what is cut off already. Kept beside
// `locate_twice` of `rounding`, which has what lies below as a number: the edit half_and_a_little_is_below_half is of this test.
fn locate_digit(digit: u64, base: u64, lower: Location) -> Location
    requires { (digit < base) × (base ≤ 256) }
    ensures { (r m : ℕ) → r < m → lower ≡ located r m → result ≡ located (digit * m + r) (m * base) }
{
    if lower == Location::Exact {
        return locate(digit, base);
    }
    let twice = 2 * digit;
    if twice + 1 == base {
        return lower;
    }
    if twice < base {
        Location::Below
    } else {
        Location::Above
    }
}

// In base 2 all digits but one that have to go, since they are bits; in another base none yet.
fn drop_bits(scale: Scale, n: u64, down: u32) -> Dropped
    requires { Scaled scale × (1 ≤ n) × (down ≤ 64) }
    ensures { Dropping scale.base scale.bound n down result.steps result.location result.count }
{
    let bits = bit_count(n);
    let below = bits.saturating_sub(scale.digits).max(down);
    if (scale.base != 2) | (below == 0) {
        return Dropped {
            steps: n,
            location: Location::Exact,
            count: 0,
        };
    }
    let count = below - 1;
    let divisor = 1u64 << count;
    let rest = locate(n & (divisor - 1), divisor);
    Dropped {
        steps: n >> count,
        location: rest,
        count,
    }
}

// The cut of n * base ^ up / base ^ down, where n is below place 0 in part or has more digits than the format. Kept as a `while`: it goes over
// no list, and two tests end it, of which one is on the steps that it makes.
fn drop_digits(scale: Scale, n: u64, up: u32, down: u32) -> Cut
    requires { Scaled scale × (1 ≤ n) × (up < 2 ^ 28) × (down ≤ 64) × ((up ≡ 0) ⊎ ((down ≡ 0) × (scale.bound ≤ n))) }
    ensures { result ≡ cut_of scale.base scale.digits (n * scale.base ^ up) (scale.base ^ down) }
{
    let base = scale.base as Significand;
    let bound = scale.bound;
    let first = drop_bits(scale, n, down);
    let mut steps = first.steps;
    let mut location = first.location;
    let mut count = first.count;
    while (count < down) | (bound <= steps) {
        location = locate_digit(steps % base, base, location);
        steps = steps / base;
        count = count + 1;
    }
    Cut {
        steps,
        place: up + count - down,
        location,
    }
}

// The cut of n * base ^ up / base ^ down, one of which is 1.
fn conversion_cut(scale: Scale, n: u64, up: u32, down: u32) -> Cut
    requires { Scaled scale × (1 ≤ n) × (up < 2 ^ 28) × ((up ≡ 0) ⊎ (down ≡ 0)) }
    ensures { result ≡ cut_of scale.base scale.digits (n * scale.base ^ up) (scale.base ^ down) }
{
    if 64 < down {
        return Cut {
            steps: 0,
            place: 0,
            location: Location::Below,
        };
    }
    if (down == 0) & (n < scale.bound) {
        return exact_cut(scale, n, up);
    }
    drop_digits(scale, n, up, down)
}

// n * base ^ up / base ^ down, with the sign `negative`, rounded.
pub fn conversion(
    scale: Scale,
    direction: Direction,
    negative: bool,
    n: u64,
    up: u32,
    down: u32,
) -> Rounding
    requires { Scaled scale × ((n ≡ 0) ⊎ (up < 2 ^ 28)) × ((up ≡ 0) ⊎ (down ≡ 0)) }
    ensures { Rounds scale.base scale.digits direction negative (n * scale.base ^ up) (scale.base ^ down) result }
{
    if n == 0 {
        return Rounding::zero(negative);
    }
    let exact = conversion_cut(scale, n, up, down);
    finish(scale, direction, negative, exact)
}
