// Number formats: which are admitted, what is prepared from one, the published ones, and the numbered directions and refusals.
#![tactic(auto)]

pub mod admission;
pub mod powers;
pub mod published;
pub mod refusals;

// The type of significands and of the powers that bound them.
pub type Significand = u64;

// Base, digits, lowest and highest exponent of the whole-number significand.
#[repr(C)]
#[derive(Clone, Copy, Debug, PartialEq, Eq, Hash)]
pub struct Format {
    pub base: u32,
    pub digits: u32,
    pub emin: i32,
    pub emax: i32,
}

// Why a call is refused, in the order of the papers' numbers, from 1 on.
#[derive(Clone, Copy, Debug, PartialEq, Eq, Hash)]
pub enum Refusal {
    FormatNotAdmitted = 1,
    NoSuchDirection,
    NumberNotInFormat,
    DivisorZero,
    TooLarge,
    NotBinary,
    SmallerFirst,
    PremiseFails,
    NotFinite,
    NoSuchFormat,
    LengthsDiffer,
    ListLength,
    ListDescends,
    OutTooShort,
    ListRepeats,
    QueriesDescend,
    StretchOutside,
    StripCount,
}

// Why a call on lists is refused: as a whole, or for the entry at an index.
#[derive(Clone, Copy, Debug, PartialEq, Eq, Hash)]
pub enum ListRefusal {
    Whole(Refusal),
    Entry(Refusal, usize),
}

// A base and a number of digits, with the powers that every operation needs: the least normal significand, base ^ (digits - 1), and the
// bound that every significand is below, base ^ digits.
#[derive(Clone, Copy, Debug, PartialEq, Eq, Hash)]
pub struct Scale {
    pub base: u32,
    pub digits: u32,
    pub least: Significand,
    pub bound: Significand,
}

// An admitted format with its scale and its highest place, emax - emin.
#[derive(Clone, Copy, Debug, PartialEq, Eq, Hash)]
pub struct Prepared {
    pub format: Format,
    pub scale: Scale,
    pub highest: u32,
}
