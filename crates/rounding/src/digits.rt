// Powers of the base, how many digits a number has, and significands brought to all of them.
ghost use Rattle.std.specs.Prelude.{◌≡◌, ◌+◌, ◌*◌, ◌<◌, ◌≤◌, ◌^◌};
ghost use Rattle.format.specs.Formats.{Scaled};
ghost use Rattle.rounding.specs.Digits.{Digits, Extended, factor_of};

use format::{Scale, Significand};

// A significand with more digits, and how many were added.
#[derive(Clone, Copy)]
pub struct Normal {
    pub value: Significand,
    pub shift: u32,
}

// The factor of a power that a bit of its exponent selects.
fn factor(k: u32, bit: u32, power: u64) -> u64
    requires { 1 ≤ bit }
    ensures { result ≡ factor_of k bit power }
{
    if k / bit % 2 == 1 { power } else { 1 }
}

// 10 ^ k: a product of a few selected constants, with no loop. Kept in place of `10u64.pow(k)`: the edit decimal_factor_has_a_zero_too_few is of
// these constants.
fn decimal_power(k: u32) -> Significand
    requires { k ≤ 18 }
    ensures { result ≡ 10 ^ k }
{
    let low = factor(k, 1, 10) * factor(k, 2, 100) * factor(k, 4, 10000);
    let high = factor(k, 8, 100000000) * factor(k, 16, 10000000000000000);
    low * high
}

// base ^ k, for k up to the digits. Other bases work it out only where the scale does not have the power.
pub fn power(scale: Scale, k: u32) -> Significand
    requires { Scaled scale × (k ≤ scale.digits) }
    ensures { result ≡ scale.base ^ k }
{
    if scale.base == 2 {
        return 1u64 << k;
    }
    if scale.base == 10 {
        return decimal_power(k);
    }
    if k == scale.digits {
        return scale.bound;
    }
    if k + 1 == scale.digits {
        return scale.least;
    }
    format::powers::power(scale.base, k)
}

// The digits of `n` in base 2, which are its bits.
pub fn bit_count(n: u64) -> u32
    requires { 1 ≤ n }
    ensures { Digits 2 n result }
{
    n.ilog2() + 1
}

// The digits of `n` in base 10, guessed from its bits (1233 / 4096 is just above log 2): the guess, or one more.
fn decimal_count(n: u64) -> u32
    requires { (1 ≤ n) × (n < 2 ^ 63) }
    ensures { Digits 10 n result }
{
    let guess = bit_count(n) * 1233 / 4096;
    guess + (decimal_power(guess) <= n) as u32
}

// The digits of a significand.
fn digit_count(scale: Scale, n: Significand) -> u32
    requires { Scaled scale × (1 ≤ n) × (n < scale.bound) }
    ensures { Digits scale.base n result }
{
    if scale.least <= n {
        return scale.digits;
    }
    if scale.base == 2 {
        return bit_count(n);
    }
    if scale.base == 10 {
        return decimal_count(n);
    }
    // Kept as a loop: `n.ilog(base)` divides where this multiplies, and costs a conversion in every base 6 instructions more (211 in place of 205 in base 2).
    let base = scale.base as Significand;
    let mut bound = base;
    let mut count: u32 = 1;
    while bound <= n {
        bound = bound * base;
        count = count + 1;
    }
    count
}

// `m` with as many digits more as it lacks, but at most `most`.
pub fn normalise(scale: Scale, m: Significand, most: u32) -> Normal
    requires { Scaled scale × (m < scale.bound) }
    ensures { Extended scale m most result.value result.shift }
{
    if m == 0 {
        return Normal {
            value: 0,
            shift: most,
        };
    }
    let lack = scale.digits - digit_count(scale, m);
    let shift = lack.min(most);
    Normal {
        value: m * power(scale, shift),
        shift,
    }
}
