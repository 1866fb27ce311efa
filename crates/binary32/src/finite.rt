// Which patterns are finite: neither an infinity nor NaN.
ghost use Rattle.std.specs.Prelude.{◌≡◌};
ghost use Rattle.theory.specs.Lists.{first_where};
ghost use Rattle.theory.specs.Tests.{◌and◌};
ghost use Rattle.binary32.specs.Patterns.{finite, not_finite};

use crate::patterns::field_of;

pub fn is_finite(pattern: u32) -> bool
    ensures { result ≡ finite pattern }
{
    field_of(pattern) != 255
}

pub fn are_finite(a: u32, b: u32) -> bool
    ensures { result ≡ finite a and finite b }
{
    is_finite(a) && is_finite(b)
}

// The position of the first pattern that is not finite, or the length. No Option: its contract stands, and the definitions of other
// crates go by `first_where`, which is the length where there is none.
pub fn first_not_finite(patterns: &[u32]) -> usize
    ensures { result ≡ first_where not_finite patterns.now }
{
    patterns
        .iter()
        .position(|&p| !is_finite(p))
        .unwrap_or(patterns.len())
}
