// The engine's answers as C sees them, and its numbers as C hands them over. An answer is a struct whose first field is the refusal's
// number, 0 for none; at a refusal its numbers are in no format, and its other fields are zero. A verdict or a pattern is a number. Each
// answer has a function of its own: a From could make the structs, but not the numbers, and could not ask for an index of 32 bits.
ghost use Rattle.std.specs.Prelude.{◌≡◌};
ghost use Rattle.format.specs.Given.{given, given_at};
ghost use Rattle.receivers.specs.Answers.{log_number, calmer_given};
ghost use Rattle.c_api.specs.Answers.{refusal_out, number_in, number_for, number_out, mark_number, rounded_out, quotient_out, order_number, order_out, published_out, triple_out, check_out, pattern_out, pattern64_out, slices_out, count_out, stretch_out, SmallIndex};

use arithmetic::{CountedQuotient, Rounded};
use fast_two_sum::Steps;
use format::{Format, ListRefusal, Refusal, Significand};
use number::Number;
use receivers::Log;
use std::cmp::Ordering;
use theory::Mark;

// A number: the sign is 0 for plus, 1 for minus. The order of the fields leaves no gap, so that a number is two registers.
#[repr(C)]
#[derive(Clone, Copy)]
pub struct CNumber {
    pub significand: Significand,
    pub exponent: i32,
    pub negative: u32,
}

#[repr(C)]
#[derive(Clone, Copy)]
pub struct NumberOut {
    pub refusal: u32,
    pub number: CNumber,
}

// The mark is 0, 1 or 2: the number is the exact result, below it, above it.
#[repr(C)]
#[derive(Clone, Copy)]
pub struct RoundedOut {
    pub refusal: u32,
    pub mark: u32,
    pub number: CNumber,
}

// The same, with the number of quotient digits that were worked out.
#[repr(C)]
#[derive(Clone, Copy)]
pub struct QuotientOut {
    pub refusal: u32,
    pub mark: u32,
    pub digits: u32,
    pub number: CNumber,
}

// A pattern of 64 bits, which leaves no room for the refusal beside it in one number.
#[repr(C)]
#[derive(Clone, Copy)]
pub struct Pattern64Out {
    pub refusal: u32,
    pub pattern: u64,
}

// The order is -1, 0 or 1: less, equal, greater.
#[repr(C)]
#[derive(Clone, Copy)]
pub struct OrderOut {
    pub refusal: u32,
    pub order: i32,
}

#[repr(C)]
#[derive(Clone, Copy)]
pub struct PublishedOut {
    pub refusal: u32,
    pub format: Format,
}

#[repr(C)]
#[derive(Clone, Copy)]
pub struct TripleOut {
    pub refusal: u32,
    pub x: CNumber,
    pub z: CNumber,
    pub y: CNumber,
}

// 1 for yes, 0 for no.
#[repr(C)]
#[derive(Clone, Copy)]
pub struct CheckOut {
    pub refusal: u32,
    pub yes: u32,
}

// The index of the first refused entry, beside refusals 5 and 9, and how many entries are not exact, where none is refused.
#[repr(C)]
#[derive(Clone, Copy)]
pub struct SlicesOut {
    pub refusal: u32,
    pub index: u64,
    pub inexact: u64,
}

// A position, a count or a pattern: the layout of four structs of the header. Where `indexed` is 1, `index` is that of the first refused entry.
#[repr(C)]
#[derive(Clone, Copy)]
pub struct IndexedOut {
    pub refusal: u32,
    pub value: u32,
    pub indexed: u32,
    pub index: u32,
}

// The log is 1 or 2; indexed is 1 beside refusal 9, which has an index.
#[repr(C)]
#[derive(Clone, Copy)]
pub struct StretchOut {
    pub refusal: u32,
    pub log: u32,
    pub indexed: u32,
    pub index: u64,
}

// A significand of no admitted format, where base^digits is at most 2^63.
const NO_SIGNIFICAND: Significand = Significand::MAX;

// What stands for the number of a refused answer: every call that is handed it refuses it by 3, but a conversion, which takes any number.
const NO_NUMBER: CNumber = CNumber {
    significand: NO_SIGNIFICAND,
    exponent: 0,
    negative: 0,
};

// What stands for the format of a refused answer: none that is admitted.
const NO_FORMAT: Format = Format {
    base: 0,
    digits: 0,
    emin: 0,
    emax: 0,
};

// The number that C means. A sign that is neither 0 nor 1 makes one that is in no format.
impl From<CNumber> for Number {
    ghost from_gives = { λ x number. number ≡ number_in x };

    fn from(x: CNumber) -> Number {
        let e = x.exponent;
        let given = x.significand;
        let significand = if x.negative <= 1 {
            given
        } else {
            NO_SIGNIFICAND
        };
        Number {
            negative: x.negative == 1,
            significand,
            exponent: e,
        }
    }
}

// A number for C, field by field: copied whole it would be read back in other pieces than it was stored in, which costs time.
impl From<Number> for CNumber {
    ghost from_gives = { λ x number. number ≡ number_for x };

    fn from(x: Number) -> CNumber {
        let negative = u32::from(x.negative);
        CNumber {
            significand: x.significand,
            exponent: x.exponent,
            negative,
        }
    }
}

pub fn number_out(answer: Result<Number, Refusal>) -> NumberOut
    ensures { result ≡ number_out (given answer) }
{
    match answer {
        Ok(x) => {
            let number = x.into();
            NumberOut { refusal: 0, number }
        }
        Err(why) => NumberOut {
            refusal: why.into(),
            number: NO_NUMBER,
        },
    }
}

// Marks have the numbers of their order.
fn mark_number(mark: Mark) -> u32
    ensures { result ≡ mark_number mark }
{
    mark as u32
}

pub fn rounded_out(answer: Result<Rounded, Refusal>) -> RoundedOut
    ensures { result ≡ rounded_out (given answer) }
{
    match answer {
        Ok(rounded) => {
            let kept = rounded.number;
            let mark = rounded.mark;
            let number = kept.into();
            RoundedOut {
                refusal: 0,
                mark: mark_number(mark),
                number,
            }
        }
        Err(why) => RoundedOut {
            refusal: why.into(),
            mark: 0,
            number: NO_NUMBER,
        },
    }
}

pub fn quotient_out(answer: Result<CountedQuotient, Refusal>) -> QuotientOut
    ensures { result ≡ quotient_out (given answer) }
{
    match answer {
        Ok(quotient) => {
            let kept = quotient.number;
            let mark = quotient.mark;
            let number = kept.into();
            QuotientOut {
                refusal: 0,
                mark: mark_number(mark),
                digits: quotient.digits,
                number,
            }
        }
        Err(why) => QuotientOut {
            refusal: why.into(),
            mark: 0,
            digits: 0,
            number: NO_NUMBER,
        },
    }
}

pub fn triple_out(answer: Result<Steps, Refusal>) -> TripleOut
    ensures { result ≡ triple_out (given answer) }
{
    match answer {
        Ok(steps) => {
            let first = steps.x;
            let second = steps.z;
            let third = steps.y;
            let x = first.into();
            let z = second.into();
            let y = third.into();
            TripleOut {
                refusal: 0,
                x,
                z,
                y,
            }
        }
        Err(why) => TripleOut {
            refusal: why.into(),
            x: NO_NUMBER,
            z: NO_NUMBER,
            y: NO_NUMBER,
        },
    }
}

pub fn verdict_out(verdict: Result<(), Refusal>) -> u32
    ensures { result ≡ refusal_out (given verdict) }
{
    match verdict {
        Ok(()) => 0,
        Err(why) => why.into(),
    }
}

// Orders have the numbers -1, 0 and 1.
fn order_number(order: Ordering) -> i32
    ensures { result ≡ order_number order }
{
    order as i32
}

pub fn order_out(answer: Result<Ordering, Refusal>) -> OrderOut
    ensures { result ≡ order_out (given answer) }
{
    match answer {
        Ok(order) => OrderOut {
            refusal: 0,
            order: order_number(order),
        },
        Err(why) => OrderOut {
            refusal: why.into(),
            order: 0,
        },
    }
}

pub fn published_out(answer: Result<Format, Refusal>) -> PublishedOut
    ensures { result ≡ published_out (given answer) }
{
    match answer {
        Ok(format) => PublishedOut { refusal: 0, format },
        Err(why) => PublishedOut {
            refusal: why.into(),
            format: NO_FORMAT,
        },
    }
}

pub fn check_out(answer: Result<bool, Refusal>) -> CheckOut
    ensures { result ≡ check_out (given answer) }
{
    match answer {
        Ok(yes) => CheckOut {
            refusal: 0,
            yes: yes.into(),
        },
        Err(why) => CheckOut {
            refusal: why.into(),
            yes: 0,
        },
    }
}

// The refusal in the upper half, the pattern in the lower.
pub fn pattern_out(answer: Result<u32, Refusal>) -> u64
    ensures { result ≡ pattern_out (given answer) }
{
    match answer {
        Ok(pattern) => pattern.into(),
        Err(why) => u64::from(u32::from(why)) * 4294967296,
    }
}

pub fn pattern64_out(answer: Result<u64, Refusal>) -> Pattern64Out
    ensures { result ≡ pattern64_out (given answer) }
{
    match answer {
        Ok(pattern) => Pattern64Out {
            refusal: 0,
            pattern,
        },
        Err(why) => Pattern64Out {
            refusal: why.into(),
            pattern: 0,
        },
    }
}

pub fn slices_out(answer: Result<usize, ListRefusal>) -> SlicesOut
    ensures { result ≡ slices_out (given_at answer) }
{
    match answer {
        Ok(inexact) => SlicesOut {
            refusal: 0,
            index: 0,
            inexact: inexact as u64,
        },
        Err(ListRefusal::Whole(why)) => SlicesOut {
            refusal: why.into(),
            index: 0,
            inexact: 0,
        },
        Err(ListRefusal::Entry(why, index)) => SlicesOut {
            refusal: why.into(),
            index: index as u64,
            inexact: 0,
        },
    }
}

// A position, a count or a pattern, or a refusal whose index has 32 bits.
pub fn count_out(answer: Result<u32, ListRefusal>) -> IndexedOut
    requires { SmallIndex (given_at answer) }
    ensures { result ≡ count_out (given_at answer) }
{
    match answer {
        Ok(value) => IndexedOut {
            refusal: 0,
            value,
            indexed: 0,
            index: 0,
        },
        Err(ListRefusal::Whole(why)) => IndexedOut {
            refusal: why.into(),
            value: 0,
            indexed: 0,
            index: 0,
        },
        Err(ListRefusal::Entry(why, index)) => IndexedOut {
            refusal: why.into(),
            value: 0,
            indexed: 1,
            index: index as u32,
        },
    }
}

// The logs are numbered 1 and 2.
fn log_number(log: Log) -> u32
    ensures { result ≡ log_number log }
{
    match log {
        Log::First => 1,
        Log::Second => 2,
    }
}

pub fn stretch_out(answer: Result<Log, ListRefusal>) -> StretchOut
    ensures { result ≡ stretch_out (calmer_given answer) }
{
    match answer {
        Ok(log) => StretchOut {
            refusal: 0,
            log: log_number(log),
            indexed: 0,
            index: 0,
        },
        Err(ListRefusal::Whole(why)) => StretchOut {
            refusal: why.into(),
            log: 0,
            indexed: 0,
            index: 0,
        },
        Err(ListRefusal::Entry(why, at)) => StretchOut {
            refusal: why.into(),
            log: 0,
            indexed: 1,
            index: at as u64,
        },
    }
}
