// The product of two words, which has two.
ghost use Rattle.std.specs.Prelude.{◌≡◌, ◌*◌};
ghost use Rattle.two_words.specs.Amount.{amount};
ghost use Rattle.two_words.specs.Columns.{high_column, low_column};

use crate::TwoWords;

// a * b, in 128 bits: the compiler makes it one machine multiplication. Its words are those that the columns of 32 bits give.
pub fn product(a: u64, b: u64) -> TwoWords
    ensures value { amount result ≡ a * b }
    ensures words { (result.high ≡ high_column 32 a b) × (result.low ≡ low_column 32 a b) }
{
    TwoWords::from(a as u128 * b as u128)
}
