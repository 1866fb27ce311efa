// Two words divided by one, where the quotient is one word.
ghost use Rattle.std.specs.Prelude.{◌≡◌, ◌+◌, ◌-◌, ◌*◌, ◌/◌, ◌%◌, ◌^◌, ◌<◌, ◌≤◌};
ghost use Rattle.two_words.specs.Amount.{amount};

use crate::{TwoWords, WordQuotient};

// What a high word gives to a quotient by 2^j. Two shifts, since the one by 64 - j would be too long where j = 0.
pub fn high_quotient(high: u64, j: u32) -> u64
    requires { (j ≤ 63) × (high < 2 ^ j) }
    ensures { result ≡ high * 2 ^ (64 - j) }
{
    high << 1 << (63 - j)
}

// One digit of 32 bits: h * 2^32 + l divided by d, whose top bit is set. The upper half of d guesses the digit, at most 2 too large;
// what the guess lacks, which fits a word, says how much. Values are selected and not branched on: no branch would be predicted.
fn digit(h: u64, l: u64, d: u64) -> WordQuotient
    requires { (2 ^ 63 ≤ d) × (h < d) × (l < 2 ^ 32) }
    ensures { (result.quotient * d + result.remainder ≡ h * 2 ^ 32 + l) × (result.remainder < d) }
{
    let upper = d / 0x1_0000_0000;
    let guess = h / upper;
    let have = h % upper * 0x1_0000_0000 + l;
    let want = guess * (d % 0x1_0000_0000);
    let lack = want.saturating_sub(have);
    let spare = have.saturating_sub(want);
    let quotient = guess - (0 < lack) as u64 - (d < lack) as u64;
    let short = if d < lack { d - (lack - d) } else { d - lack };
    let remainder = if 0 < lack { short } else { spare };
    WordQuotient {
        quotient,
        remainder,
    }
}

// The quotient of h * 2^64 + l by d, whose top bit is set: two digits.
fn divide_normal(h: u64, l: u64, d: u64) -> WordQuotient
    requires { (2 ^ 63 ≤ d) × (h < d) }
    ensures { (result.quotient * d + result.remainder ≡ h * 2 ^ 64 + l) × (result.remainder < d) }
{
    let first = digit(h, l / 0x1_0000_0000, d);
    let second = digit(first.remainder, l % 0x1_0000_0000, d);
    WordQuotient {
        quotient: first.quotient * 0x1_0000_0000 + second.quotient,
        remainder: second.remainder,
    }
}

// The number and the divisor are shifted until the divisor's top bit is set; the remainder is shifted back.
// (l / 2) >> (63 - s) are the bits that leave l, with no case for s = 0.
fn divide_long(h: u64, l: u64, d: u64) -> WordQuotient
    requires { h < d }
    ensures { (result.quotient ≡ (h * 2 ^ 64 + l) / d) × (result.remainder ≡ (h * 2 ^ 64 + l) % d) }
{
    let s = d.leading_zeros();
    let top = (h << s) + ((l / 2) >> (63 - s));
    let r = divide_normal(top, l << s, d << s);
    WordQuotient {
        quotient: r.quotient,
        remainder: r.remainder >> s,
    }
}

// x divided by d. A number of one word takes one machine division.
pub fn divide(x: TwoWords, d: u64) -> WordQuotient
    requires { (1 ≤ d) × (x.high < d) }
    ensures { (result.quotient ≡ amount x / d) × (result.remainder ≡ amount x % d) }
{
    if x.high == 0 {
        return WordQuotient {
            quotient: x.low / d,
            remainder: x.low % d,
        };
    }
    divide_long(x.high, x.low, d)
}
