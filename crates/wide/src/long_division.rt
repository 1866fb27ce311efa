// A fraction n / d of whole numbers, worked out digit by digit in the base of a format.
ghost use Rattle.std.specs.Prelude.{◌≡◌, ℕ, ◌*◌, ◌/◌, ◌%◌, ◌<◌, ◌≤◌, ◌^◌};
ghost use Rattle.format.specs.Formats.{Scaled};
ghost use Rattle.rounding.specs.Cut.{cut_of, Rounds};
ghost use Rattle.wide.specs.Division.{Divided, Ended, Quotient, Start};

use format::{Scale, Significand};
use rounding::choice::{finish, locate};
use rounding::cutting::exact_cut;
use rounding::{Cut, Rounding};
use theory::{Direction, Location};
use two_words::WordQuotient;

// The divisor d * base ^ place, which is above n.
#[derive(Clone, Copy)]
pub struct Aligned {
    pub divisor: u64,
    pub place: u32,
}

// quotient + remainder / divisor, in steps of base ^ place. Places count from the lowest that the format keeps.
#[derive(Clone, Copy)]
pub struct Division {
    pub quotient: Significand,
    pub remainder: u64,
    pub place: u32,
}

// The least divisor d * base ^ place above n: the first digit of n / d stands at the place below, or further below where n < d. Kept as a
// `while`: it goes over no list, and yields both numbers that each turn changes.
fn align(base: u32, n: u32, d: u32) -> Aligned
    requires { (2 ≤ base) × (base ≤ 256) × (1 ≤ d) }
    ensures { Start base n d result.divisor result.place }
{
    let factor = base as u64;
    let numerator = n as u64;
    let mut divisor = d as u64;
    let mut place: u32 = 0;
    while divisor <= numerator {
        divisor = divisor * factor;
        place = place + 1;
    }
    Aligned { divisor, place }
}

// The next digit, how often the divisor goes into n, and what remains: in base 2 by a comparison, else by a machine division.
fn next_digit(base: u32, n: u64, divisor: u64) -> WordQuotient
    requires { (1 ≤ divisor) × (n < divisor * base) }
    ensures { (result.quotient ≡ n / divisor) × (result.remainder ≡ n % divisor) }
{
    if base != 2 {
        return WordQuotient {
            quotient: n / divisor,
            remainder: n % divisor,
        };
    }
    if n < divisor {
        return WordQuotient {
            quotient: 0,
            remainder: n,
        };
    }
    WordQuotient {
        quotient: 1,
        remainder: n - divisor,
    }
}

// The digits of n / divisor, of which `places` stand at or above the lowest place, one each turn. The loop ends as soon as all digits of
// the format stand, the digit at the lowest place has been taken, or nothing remains: the form that document 01 names, a loop over digits that
// yields by `break` at its three ends.
fn take_digits(scale: Scale, n: u32, divisor: u64, places: u32) -> Division
    requires { Scaled scale × (1 ≤ n) × (n < divisor) × (divisor < 2 ^ 32 * scale.base) }
    ensures { Divided scale n divisor places result }
{
    let base = scale.base as u64;
    let mut taken = Division {
        quotient: 0,
        remainder: n as u64,
        place: places,
    };
    loop {
        if scale.least <= taken.quotient {
            break taken;
        }
        if taken.place == 0 {
            break taken;
        }
        if taken.remainder == 0 {
            break taken;
        }
        let next = next_digit(scale.base, taken.remainder * base, divisor);
        taken = Division {
            quotient: taken.quotient * base + next.quotient,
            remainder: next.remainder,
            place: taken.place - 1,
        };
    }
}

// The cut of every value that was so divided. Where nothing remains, the digits that are missing are zeros.
fn cut_division(scale: Scale, division: Division, divisor: u64) -> Cut
    requires { Scaled scale × (division.remainder < divisor) × (divisor < 2 ^ 63) × (division.quotient < scale.bound)
        × (division.place < 2 ^ 30) × Ended scale division }
    ensures { (N D : ℕ) → 1 ≤ D → Quotient scale.base N D divisor division.quotient division.remainder division.place
        → result ≡ cut_of scale.base scale.digits N D }
{
    if division.remainder == 0 {
        return exact_cut(scale, division.quotient, division.place);
    }
    let location = locate(division.remainder, divisor);
    Cut {
        steps: division.quotient,
        place: division.place,
        location,
    }
}

// The cut of n * base ^ up / (d * base ^ down).
fn cut_fraction(scale: Scale, n: u32, d: u32, up: u32, down: u32) -> Cut
    requires { Scaled scale × (1 ≤ d) × (up < 2 ^ 28) × (down < 2 ^ 28) }
    ensures { result ≡ cut_of scale.base scale.digits (n * scale.base ^ up) (d * scale.base ^ down) }
{
    if n == 0 {
        return Cut {
            steps: 0,
            place: 0,
            location: Location::Exact,
        };
    }
    let aligned = align(scale.base, n, d);
    let divisor = aligned.divisor;
    let high = aligned.place + up;
    if high < down {
        return Cut {
            steps: 0,
            place: 0,
            location: Location::Below,
        };
    }
    let division = take_digits(scale, n, divisor, high - down);
    cut_division(scale, division, divisor)
}

// n * base ^ up / (d * base ^ down) with the sign `negative`, rounded.
pub fn fraction(
    scale: Scale,
    direction: Direction,
    negative: bool,
    n: u32,
    d: u32,
    up: u32,
    down: u32,
) -> Rounding
    requires { Scaled scale × (1 ≤ d) × (up < 2 ^ 28) × (down < 2 ^ 28) }
    ensures { Rounds scale.base scale.digits direction negative (n * scale.base ^ up) (d * scale.base ^ down) result }
{
    finish(
        scale,
        direction,
        negative,
        cut_fraction(scale, n, d, up, down),
    )
}
