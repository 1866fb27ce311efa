// binary32, binary64 and decimal32 patterns and the sum of slices, for C. A call that makes a pattern of 32 bits answers a 64-bit number:
// the refusal in the upper half, the pattern in the lower.
ghost use Rattle.std.specs.Prelude.{◌≡◌};
ghost use Rattle.format.specs.Directions as directions;
ghost use Rattle.binary32.specs.Patterns.{pattern_read, pattern_written};
ghost use Rattle.binary32_arithmetic.specs.Calls.{pattern_alone, pattern_call, Sum, Difference, Product, Quotient};
ghost use Rattle.binary32_arithmetic.specs.Slices.{sums, slices_answer, slices_written};
ghost use Rattle.binary64.specs.Patterns.{binary64_read, binary64_written};
ghost use Rattle.decimal32.specs.Patterns.{decimal32_read, decimal32_written};
ghost use Rattle.c_api.specs.Answers.{number_in, number_out, pattern_out, pattern64_out, slices_out};

use crate::answers::{
    CNumber, NumberOut, Pattern64Out, SlicesOut, number_out, pattern_out, pattern64_out, slices_out,
};
use binary32::patterns::{read_pattern, write_pattern};
use binary32_arithmetic::operations::{
    pattern_difference, pattern_product, pattern_quotient, pattern_sum, without_mark,
};
use binary32_arithmetic::slices::sum_slices;
use binary64::patterns::{read_binary64, write_binary64};
use decimal32::reading::read_decimal32;
use decimal32::writing::write_decimal32;

// The number of a binary32 pattern. Refuses 9.
#[unsafe(no_mangle)]
pub extern "C" fn zurkeb_read_pattern(pattern: u32) -> NumberOut
    ensures { result ≡ number_out (pattern_read pattern) }
{
    number_out(read_pattern(pattern))
}

// The binary32 pattern of a number. Refuses 3.
#[unsafe(no_mangle)]
pub extern "C" fn zurkeb_write_pattern(x: CNumber) -> u64
    ensures { result ≡ pattern_out (pattern_written (number_in x)) }
{
    pattern_out(write_pattern(x.into()))
}

// The number of a decimal32 pattern. Refuses 9.
#[unsafe(no_mangle)]
pub extern "C" fn zurkeb_read_decimal32(pattern: u32) -> NumberOut
    ensures { result ≡ number_out (decimal32_read pattern) }
{
    number_out(read_decimal32(pattern))
}

// The decimal32 pattern of a number. Refuses 3.
#[unsafe(no_mangle)]
pub extern "C" fn zurkeb_write_decimal32(x: CNumber) -> u64
    ensures { result ≡ pattern_out (decimal32_written (number_in x)) }
{
    pattern_out(write_decimal32(x.into()))
}

// The number of a binary64 pattern. Refuses 9.
#[unsafe(no_mangle)]
pub extern "C" fn zurkeb_read_binary64(pattern: u64) -> NumberOut
    ensures { result ≡ number_out (binary64_read pattern) }
{
    number_out(read_binary64(pattern))
}

// The binary64 pattern of a number. Refuses 3.
#[unsafe(no_mangle)]
pub extern "C" fn zurkeb_write_binary64(x: CNumber) -> Pattern64Out
    ensures { result ≡ pattern64_out (binary64_written (number_in x)) }
{
    pattern64_out(write_binary64(x.into()))
}

// a + b. Refuses 2, 9, 5.
#[unsafe(no_mangle)]
pub extern "C" fn zurkeb_pattern_sum(a: u32, b: u32, direction: u32) -> u64
    ensures { result ≡ pattern_out (pattern_alone (pattern_call Sum direction a b)) }
{
    pattern_out(without_mark(pattern_sum(direction, a, b)))
}

// a - b. Refuses 2, 9, 5.
#[unsafe(no_mangle)]
pub extern "C" fn zurkeb_pattern_difference(a: u32, b: u32, direction: u32) -> u64
    ensures { result ≡ pattern_out (pattern_alone (pattern_call Difference direction a b)) }
{
    pattern_out(without_mark(pattern_difference(direction, a, b)))
}

// a * b. Refuses 2, 9, 5.
#[unsafe(no_mangle)]
pub extern "C" fn zurkeb_pattern_product(a: u32, b: u32, direction: u32) -> u64
    ensures { result ≡ pattern_out (pattern_alone (pattern_call Product direction a b)) }
{
    pattern_out(without_mark(pattern_product(direction, a, b)))
}

// a / b. Refuses 2, 9, 4, 5.
#[unsafe(no_mangle)]
pub extern "C" fn zurkeb_pattern_quotient(a: u32, b: u32, direction: u32) -> u64
    ensures { result ≡ pattern_out (pattern_alone (pattern_call Quotient direction a b)) }
{
    pattern_out(without_mark(pattern_quotient(direction, a, b)))
}

// a + b entry by entry into out. Refuses 11, 2, and 9 and 5 with the index of the first refused entry; a refused call leaves out
// as it was.
#[unsafe(no_mangle)]
pub extern "C" fn zurkeb_sum_slices(
    a: &[u32],
    b: &[u32],
    out: &mut [u32],
    direction: u32,
) -> SlicesOut
    ensures answer { result ≡ slices_out (slices_answer direction a.now b.now out.old) }
    ensures written { out.new ≡ slices_written (slices_answer direction a.now b.now out.old)
        (sums (directions.direction direction) a.now b.now) out.old }
{
    let answer = sum_slices(direction, a, b, out);
    slices_out(answer)
}
