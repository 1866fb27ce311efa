// The quotient: both significands brought to all their digits, and one division, which also tells how many digits were worked out.
ghost use Rattle.std.specs.Prelude.{◌≡◌, ◌+◌, ◌*◌, ◌<◌, ◌≤◌, ◌^◌};
ghost use Rattle.format.specs.Formats.{Scaled};
ghost use Rattle.rounding.specs.Cut.{cut_of, Rounds};
ghost use Rattle.rounding.specs.Location.{located};
ghost use Rattle.rounding.specs.Digits.{Leading};
ghost use Rattle.wide.specs.Quotient.{CutShifted, digits_from, digits_of};

use format::powers::trailing_zeros;
use format::{Scale, Significand};
use rounding::choice::{finish, locate};
use rounding::digits::{normalise, power};
use rounding::{Cut, Rounding};
use theory::{Direction, Location};
use two_words::TwoWords;
use two_words::orders::less;
use two_words::product::product;
use two_words::quotient::divide;

// A rounded quotient, and how many of its digits were worked out.
#[derive(Clone, Copy)]
pub struct CountedRounding {
    pub rounding: Rounding,
    pub digits: u32,
}

// The cut of a * unit divided by b, where the unit brings `after` digits behind the first before the point, and how many digits were worked
// out: where nothing remains, not the zeros that the quotient ends in.
fn divide_shifted(
    scale: Scale,
    a: Significand,
    b: Significand,
    unit: Significand,
    after: u32,
    place: u32,
) -> (Cut, u32)
    requires { Scaled scale × Leading scale a × Leading scale b × (a * unit < b * scale.bound) × (unit ≡ scale.base ^ after) × (after < 64) }
    ensures { CutShifted scale.base a b after place result.0 result.1 }
{
    let division = divide(product(a, unit), b);
    let steps = division.quotient;
    let location = locate(division.remainder, b);
    let mut digits = after + 1;
    if division.remainder == 0 {
        digits = after + 1 - trailing_zeros(scale.base, steps);
    }
    let cut = Cut {
        steps,
        place,
        location,
    };
    (cut, digits)
}

// Where a lies in b * base ^ e.
fn locate_under(scale: Scale, a: Significand, b: Significand, e: u32) -> Location
    requires { Scaled scale × Leading scale a × Leading scale b × (1 ≤ e) }
    ensures { result ≡ located a (b * scale.base ^ e) }
{
    if 1 < e {
        return Location::Below;
    }
    let twice = TwoWords {
        high: 0,
        low: 2 * a,
    };
    let whole = product(b, scale.base as Significand);
    if less(twice, whole) {
        return Location::Below;
    }
    if less(whole, twice) {
        Location::Above
    } else {
        Location::Half
    }
}

// The cut of a * base ^ high / (b * base ^ low) and its digits, where a and b have all theirs. The first digit of a / b stands `high` less `low`
// places above the lowest.
fn quotient_cut(scale: Scale, a: Significand, b: Significand, high: u32, low: u32) -> (Cut, u32)
    requires { Scaled scale × Leading scale a × Leading scale b × (high < 2 ^ 30) × (low < 2 ^ 30) }
    ensures { (result.0 ≡ cut_of scale.base scale.digits (a * scale.base ^ high) (b * scale.base ^ low))
        × (result.1 ≡ digits_from scale.base scale.digits a b high low) }
{
    if high < low {
        let cut = Cut {
            steps: 0,
            place: 0,
            location: locate_under(scale, a, b, low - high),
        };
        return (cut, 0);
    }
    let mut most = scale.digits;
    let mut unit = scale.bound;
    if b <= a {
        most = most - 1;
        unit = scale.least;
    }
    let reach = high - low;
    let after = most.min(reach);
    if after < most {
        unit = power(scale, after);
    }
    divide_shifted(scale, a, b, unit, after, reach - after)
}

// m * base ^ up / (n * base ^ down), with the sign `negative`, rounded.
pub fn quotient(
    scale: Scale,
    direction: Direction,
    negative: bool,
    m: Significand,
    n: Significand,
    up: u32,
    down: u32,
) -> CountedRounding
    requires { Scaled scale × (m < scale.bound) × (1 ≤ n) × (n < scale.bound) × (up < 2 ^ 29) × (down < 2 ^ 29) }
    ensures { Rounds scale.base scale.digits direction negative (m * scale.base ^ up) (n * scale.base ^ down) result.rounding
        × (result.digits ≡ digits_of scale.base scale.digits m n up down) }
{
    if m == 0 {
        let rounding = Rounding::zero(negative);
        let digits: u32 = 0;
        return CountedRounding { rounding, digits };
    }
    let mut a = m;
    let mut b = n;
    let mut low = down;
    let mut high = up;
    if (m < scale.least) | (n < scale.least) {
        // Made anew: `scale` itself, handed on, is copied in the frequent way too, and a quotient takes 297 instructions in place of 291 in base 2.
        let made = Scale {
            base: scale.base,
            digits: scale.digits,
            least: scale.least,
            bound: scale.bound,
        };
        let first = normalise(made, m, scale.digits);
        let second = normalise(made, n, scale.digits);
        a = first.value;
        b = second.value;
        low = down + first.shift;
        high = up + second.shift;
    }
    let (exact, digits) = quotient_cut(scale, a, b, high, low);
    let rounding = finish(scale, direction, negative, exact);
    CountedRounding { rounding, digits }
}
