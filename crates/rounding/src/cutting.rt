// Cuts of n * base ^ up / base ^ down: one division by a power, seldom two, or none.
ghost use Rattle.std.specs.Prelude.{◌≡◌, ◌+◌, ◌*◌, ◌/◌, ◌%◌, ◌<◌, ◌≤◌, ◌^◌};
ghost use Rattle.two_words.specs.Amount.{amount};
ghost use Rattle.format.specs.Formats.{Scaled};
ghost use Rattle.rounding.specs.Digits.{Unit};
ghost use Rattle.rounding.specs.Cut.{cut_of, dropped};

use crate::Cut;
use crate::choice::{locate, locate_twice};
use crate::digits::{normalise, power};
use format::{Scale, Significand};
use theory::Location;
use two_words::orders::less;
use two_words::product::product;
use two_words::quotient::{divide, high_quotient};
use two_words::{TwoWords, WordQuotient};

// n divided by base ^ j, which is at hand: its bits in base 2, else one machine division.
pub fn split(scale: Scale, n: u64, divisor: Significand, j: u32) -> WordQuotient
    requires { Scaled scale × Unit scale divisor j }
    ensures { (result.quotient ≡ n / divisor) × (result.remainder ≡ n % divisor) }
{
    if scale.base == 2 {
        return WordQuotient {
            quotient: n >> j,
            remainder: n & (divisor - 1),
        };
    }
    WordQuotient {
        quotient: n / divisor,
        remainder: n % divisor,
    }
}

// The same for two words. Kept apart from `split`: one function for both calls the division of two words and is no longer inlined, and a
// sum took 326 instructions in place of 285.
fn split_words(scale: Scale, n: TwoWords, divisor: Significand, j: u32) -> WordQuotient
    requires { Scaled scale × Unit scale divisor j × (n.high < divisor) }
    ensures { (result.quotient ≡ amount n / divisor) × (result.remainder ≡ amount n % divisor) }
{
    if scale.base == 2 {
        return WordQuotient {
            quotient: high_quotient(n.high, j) + (n.low >> j),
            remainder: n.low & (divisor - 1),
        };
    }
    divide(n, divisor)
}

// `n` without its last `j` digits, at place 0, where they are as many as the format's or more: n = upper * bound + lower, and the lower part
// counts only beside the half.
pub fn drop_beyond(scale: Scale, n: TwoWords, j: u32) -> Cut
    requires { Scaled scale × (1 ≤ amount n) × (amount n < scale.bound * scale.bound) × (scale.digits ≤ j) }
    ensures { result ≡ dropped (amount n) (scale.base ^ j) 0 }
{
    if 2 * scale.digits < j {
        return Cut {
            steps: 0,
            place: 0,
            location: Location::Below,
        };
    }
    let parts = divide(n, scale.bound);
    let upper = parts.quotient;
    let lower = parts.remainder;
    let divisor = power(scale, j - scale.digits);
    let steps = upper / divisor;
    let location = locate_twice(upper % divisor, divisor, lower, scale.bound);
    Cut {
        steps,
        place: 0,
        location,
    }
}

// The cut of n * base ^ up / base ^ down, where n has twice the digits of the format, or one less, all of them at or above place 0 but those
// that are dropped.
pub fn cut_long(scale: Scale, n: TwoWords, up: u32, down: u32) -> Cut
    requires { Scaled scale × (scale.least * scale.least ≤ amount n) × (amount n < scale.bound * scale.bound) × (up < 2 ^ 30) × (down < up + scale.digits) }
    ensures { result ≡ cut_of scale.base scale.digits (amount n * scale.base ^ up) (scale.base ^ down) }
{
    let mut divisor = scale.least;
    let mut beyond = scale.digits - 1;
    let within = less(n, product(scale.least, scale.bound));
    if !within {
        divisor = scale.bound;
        beyond = scale.digits;
    }
    let place = up + beyond - down;
    let parts = split_words(scale, n, divisor, beyond);
    let steps = parts.quotient;
    let location = locate(parts.remainder, divisor);
    Cut {
        steps,
        place,
        location,
    }
}

// The cut of n * base ^ place, which is exact.
pub fn exact_cut(scale: Scale, n: Significand, place: u32) -> Cut
    requires { Scaled scale × (n < scale.bound) }
    ensures { result ≡ cut_of scale.base scale.digits (n * scale.base ^ place) (scale.base ^ 0) }
{
    let full = normalise(scale, n, place);
    Cut {
        steps: full.value,
        place: place - full.shift,
        location: Location::Exact,
    }
}
