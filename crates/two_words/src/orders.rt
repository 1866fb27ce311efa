// Orders of numbers of two words.
ghost use Rattle.std.specs.Prelude.{◌≡◌, nat_lt};
ghost use Rattle.two_words.specs.Amount.{amount};

use crate::TwoWords;

// x < y. In 128 bits, since the derived order, word by word, costs a product 6 instructions more (272 in place of 266 in base 2).
pub fn less(x: TwoWords, y: TwoWords) -> bool
    ensures { result ≡ nat_lt (amount x) (amount y) }
{
    u128::from(x) < u128::from(y)
}
