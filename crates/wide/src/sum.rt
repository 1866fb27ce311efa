// The sum, in one word. Of numbers that overlap the lower one is brought to units of the higher place, with a rest, or to the place below where
// digits cancel; of numbers far apart only the location of the smaller one counts.
ghost use Rattle.std.specs.Prelude.{◌≡◌, ◌+◌, ◌*◌, ◌-◌, ◌<◌, ◌≤◌, ◌^◌, ◌+ℤ◌};
ghost use Rattle.format.specs.Formats.{Scaled};
ghost use Rattle.rounding.specs.Cut.{cut_of};
ghost use Rattle.rounding.specs.Digits.{Unit};
ghost use Rattle.wide.specs.Operand.{Bounded, value_of, wide};
ghost use Rattle.wide.specs.Sum.{InUnits, Short, SumCut, UnitsCut, RoundsZ, below_power};

use format::{Scale, Significand};
use rounding::choice::{finish, locate, locate_twice};
use rounding::cutting::{exact_cut, split};
use rounding::digits::power;
use rounding::{Cut, Rounding, Wide};
use theory::{Direction, Location};
use two_words::WordQuotient;

// A sign, and the cut of a magnitude.
#[derive(Clone, Copy)]
pub struct SignedCut {
    pub negative: bool,
    pub cut: Cut,
}

// The whole number of units given - taken, and a rest.
#[derive(Clone, Copy)]
pub struct UnitSum {
    pub given: u64,
    pub taken: u64,
    pub rest: u64,
}

// `m` units with or without `part`, as units and a rest.
fn add_part(m: Significand, part: WordQuotient, unit: Significand, differ: bool) -> UnitSum
    requires { (m ≤ 2 ^ 63) × (part.quotient < 2 ^ 63) × (part.remainder < unit) }
    ensures { InUnits m (part.quotient * unit + part.remainder) unit differ result.given result.taken result.rest }
{
    let quotient = part.quotient;
    let remainder = part.remainder;
    let sum = m + quotient;
    let upper = quotient + (remainder != 0) as u64;
    let missing = if remainder == 0 { 0 } else { unit - remainder };
    let given = if differ { m } else { sum };
    let taken = if differ { upper } else { 0 };
    let rest = if differ { missing } else { remainder };
    UnitSum { given, taken, rest }
}

// The cut of (steps * unit + rest) * base ^ place, where unit = base ^ gap and the steps have all the digits of the format, or one more.
fn near_cut(scale: Scale, steps: u64, rest: u64, place: u32, unit: Significand, gap: u32) -> Cut
    requires { Scaled scale × Unit scale unit gap × (scale.least ≤ steps) × (steps < 2 * scale.bound) × (rest < unit) × (place < 2 ^ 28) }
    ensures { result ≡ cut_of scale.base scale.digits ((steps * unit + rest) * scale.base ^ place) (scale.base ^ 0) }
{
    if steps < scale.bound {
        let location = locate(rest, unit);
        return Cut {
            steps,
            place: place + gap,
            location,
        };
    }
    let base = scale.base as Significand;
    let parts = split(scale, steps, base, 1);
    let location = locate_twice(parts.remainder, base, rest, unit);
    Cut {
        steps: parts.quotient,
        place: place + gap + 1,
        location,
    }
}

// The cut of the same where the steps have fewer digits than the format, since digits cancel or both numbers have few: the sum is one word
// where the gap is at most 1, else it has all its digits in units of the place below. The sign is that of the units given, or the other one.
fn short_cut(
    scale: Scale,
    negative: bool,
    sum: UnitSum,
    place: u32,
    unit: Significand,
    gap: u32,
) -> SignedCut
    requires { Scaled scale × Unit scale unit gap × Short scale sum unit gap × (place < 2 ^ 28) }
    ensures { UnitsCut scale negative sum unit place result }
{
    if gap <= 1 {
        let more = sum.taken <= sum.given;
        let size = if more {
            (sum.given - sum.taken) * unit + sum.rest
        } else {
            (sum.taken - sum.given) * unit - sum.rest
        };
        return SignedCut {
            negative: negative == more,
            cut: exact_cut(scale, size, place),
        };
    }
    let base = scale.base as Significand;
    let lower = unit / base;
    let location = locate(sum.rest % lower, lower);
    SignedCut {
        negative,
        cut: Cut {
            steps: (sum.given - sum.taken) * base + sum.rest / lower,
            place: place + (gap - 1),
            location,
        },
    }
}

// The same sum as that of `aligned_sum`, cut, where the places differ by at most `digits`: the lower number is brought to the place of the
// higher one.
fn near_sum(
    scale: Scale,
    a: bool,
    m: Significand,
    b: bool,
    n: Significand,
    place: u32,
    gap: u32,
) -> SignedCut
    requires { Scaled scale × Bounded scale (wide a m (place + gap)) × Bounded scale (wide b n place) × (gap ≤ scale.digits) }
    ensures { SumCut scale (value_of scale.base (wide a m (place + gap)) +ℤ value_of scale.base (wide b n place)) result.negative result.cut }
{
    let unit = power(scale, gap);
    let part = split(scale, n, unit, gap);
    let sum = add_part(m, part, unit, a != b);
    if sum.given < scale.least + sum.taken {
        return short_cut(scale, a, sum, place, unit, gap);
    }
    SignedCut {
        negative: a,
        cut: near_cut(scale, sum.given - sum.taken, sum.rest, place, unit, gap),
    }
}

// Where base ^ (gap - 1) - m lies in base ^ (gap - 1).
fn below_power(scale: Scale, m: Significand, gap: u32) -> Location
    requires { Scaled scale × (1 ≤ m) × (m < scale.bound) × (scale.digits < gap) }
    ensures { result ≡ below_power scale.base m gap }
{
    if scale.digits + 1 < gap {
        return Location::Above;
    }
    locate(scale.bound - m, scale.bound)
}

// The cut of a sum of two numbers whose places differ by more, with the sign of x: |y| is below half a step of x, and below a whole step
// of the number before x.
fn far_cut(scale: Scale, x: Wide, y: Wide, gap: u32) -> Cut
    requires { Scaled scale × Bounded scale x × Bounded scale y × (x.place ≡ y.place + gap) × (scale.digits < gap) }
    ensures { SumCut scale (value_of scale.base x +ℤ value_of scale.base y) x.negative result }
{
    let m = x.significand;
    let place = x.place;
    if y.significand == 0 {
        return Cut {
            steps: m,
            place,
            location: Location::Exact,
        };
    }
    let differ = x.negative != y.negative;
    if differ & (m <= scale.least) {
        return Cut {
            steps: scale.bound - 1,
            place: place - 1,
            location: below_power(scale, y.significand, gap),
        };
    }
    let location = if differ {
        Location::Above
    } else {
        Location::Below
    };
    Cut {
        steps: m - differ as Significand,
        place,
        location,
    }
}

// The sum of (-1) ^ a * m * base ^ (place + gap) and (-1) ^ b * n * base ^ place, rounded. Kept field by field: its caller in `arithmetic` selects
// the operands so, since two structs that are exchanged go through memory, and a sum took 22 ns in place of 18.
pub fn aligned_sum(
    scale: Scale,
    direction: Direction,
    a: bool,
    m: Significand,
    b: bool,
    n: Significand,
    place: u32,
    gap: u32,
) -> Rounding
    requires { Scaled scale × Bounded scale (wide a m (place + gap)) × Bounded scale (wide b n place) }
    ensures { RoundsZ scale.base scale.digits direction (value_of scale.base (wide a m (place + gap)) +ℤ value_of scale.base (wide b n place)) result }
{
    if gap <= scale.digits {
        let near = near_sum(scale, a, m, b, n, place, gap);
        let cut = near.cut;
        return finish(scale, direction, near.negative, cut);
    }
    let x = Wide {
        negative: a,
        significand: m,
        place: place + gap,
    };
    let y = Wide {
        negative: b,
        significand: n,
        place,
    };
    let cut = far_cut(scale, x, y, gap);
    finish(scale, direction, a, cut)
}

// x + y, rounded, in either order.
pub fn sum(scale: Scale, direction: Direction, x: Wide, y: Wide) -> Rounding
    requires { Scaled scale × Bounded scale x × Bounded scale y }
    ensures { RoundsZ scale.base scale.digits direction (value_of scale.base x +ℤ value_of scale.base y) result }
{
    let mut high = x;
    let mut low = y;
    if high.place < low.place {
        std::mem::swap(&mut high, &mut low);
    }
    let gap = high.place - low.place;
    aligned_sum(
        scale,
        direction,
        high.negative,
        high.significand,
        low.negative,
        low.significand,
        low.place,
        gap,
    )
}
