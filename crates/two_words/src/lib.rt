// Numbers of two words of 64 bits, for what is wider than a significand: products, orders, and quotients by one word.
#![tactic(auto)]

ghost use Rattle.std.specs.Prelude.{◌≡◌};
ghost use Rattle.two_words.specs.Amount.{amount};

pub mod orders;
pub mod product;
pub mod quotient;

// The number high * 2^64 + low.
#[derive(Clone, Copy)]
pub struct TwoWords {
    pub high: u64,
    pub low: u64,
}

impl From<u128> for TwoWords {
    ghost from_gives = { λ n x. amount x ≡ n };

    fn from(n: u128) -> TwoWords {
        TwoWords {
            high: (n >> 64) as u64,
            low: (n & 0xffff_ffff_ffff_ffff) as u64,
        }
    }
}

impl From<TwoWords> for u128 {
    ghost from_gives = { λ x n. n ≡ amount x };

    fn from(x: TwoWords) -> u128 {
        x.high as u128 * 0x1_0000_0000_0000_0000 + x.low as u128
    }
}

// A quotient of one word, and what is left.
#[derive(Clone, Copy)]
pub struct WordQuotient {
    pub quotient: u64,
    pub remainder: u64,
}
