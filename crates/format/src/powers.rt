// Powers of the bases, up to 2^63: a shift in base 2, repeated squaring in the others. How often the base goes into a significand: a count
// of bits in base 2, repeated division in the others.
ghost use Rattle.std.specs.Prelude.{◌≡◌, ◌≤◌, ◌^◌, leb};
ghost use Rattle.theory.specs.Units.{zeros};
ghost use Rattle.format.specs.Formats.{greatest_power};
ghost use Rattle.format.specs.Limits.{packed_limits, limit};

use crate::Significand;

// The limits of the eight exponents from 8 * group on, less one, a byte each, the first in the lowest. A `match` stands in the code itself;
// an array would be built on the stack at each call.
fn packed(group: u32) -> u64
    ensures { result ≡ packed_limits group }
{
    match group {
        0 => 0xffff_ffff_ffff_ffff,
        1 => 0x1115_1b25_334d_7fe9,
        2 => 0x0506_0707_080a_0c0e,
        3 => 0x0303_0303_0404_0405,
        4 => 0x0202_0202_0202_0202,
        _ => 0x0101_0101_0101_0101,
    }
}

// The greatest base up to 256 whose k-th power is at most 2^63.
fn limit(k: u32) -> u32
    requires { k ≤ 63 }
    ensures { result ≡ limit k }
{
    let bytes = packed(k / 8) >> (8 * (k % 8));
    (bytes % 256) as u32 + 1
}

// Whether base^k is at most 2^63.
pub fn fits(base: u32, k: u32) -> bool
    requires { (base ≤ 256) × (k ≤ 63) }
    ensures { result ≡ leb (base ^ k) greatest_power }
{
    if base == 2 {
        return true;
    }
    base <= limit(k)
}

// base^k by repeated squaring: the product of the squares base^(2^i) whose bit of k is set. The last one is not squared again: that
// might not fit. Not the library's `pow`: the edits one_multiplication_too_few and every_other_bit_of_the_exponent_is_skipped are of
// these turns.
fn repeated(base: u32, k: u32) -> Significand
    requires { (2 ≤ base) × (base ≤ 256) × (base ^ k ≤ greatest_power) }
    ensures { result ≡ base ^ k }
{
    let mut result: Significand = 1;
    let mut square: Significand = base as Significand;
    let mut rest = k;
    while 1 < rest {
        let factor = if rest % 2 == 1 { square } else { 1 };
        result = result * factor;
        square = square * square;
        rest = rest / 2;
    }
    let last = if rest == 1 { square } else { 1 };
    result * last
}

// base^k.
pub fn power(base: u32, k: u32) -> Significand
    requires { (2 ≤ base) × (base ≤ 256) × (base ^ k ≤ greatest_power) }
    ensures { result ≡ base ^ k }
{
    if base == 2 {
        return 1u64 << k;
    }
    repeated(base, k)
}

// How many zeros m ends in, by taking them off. The loop goes over no list: each turn divides what the turn before left.
fn zeros_by_division(base: u32, m: Significand) -> u32
    requires { (2 ≤ base) × (1 ≤ m) }
    ensures { result ≡ zeros base m }
{
    let factor = base as Significand;
    let mut rest = m;
    let mut count: u32 = 0;
    while rest % factor == 0 {
        rest = rest / factor;
        count = count + 1;
    }
    count
}

// How many zeros m ends in.
pub fn trailing_zeros(base: u32, m: Significand) -> u32
    requires { (2 ≤ base) × (1 ≤ m) }
    ensures { result ≡ zeros base m }
{
    if base == 2 {
        return u64::trailing_zeros(m);
    }
    zeros_by_division(base, m)
}
