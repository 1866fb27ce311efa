// The order of patterns by their values.
ghost use Rattle.std.specs.Prelude.{◌≡◌, not, ◌<◌};
ghost use Rattle.std.specs.Int.Signed.{lt_z};
ghost use Rattle.theory.specs.Tests.{◌and◌};
ghost use Rattle.binary32.specs.Patterns.{pattern_value, key_of, pattern_of_key};

// A whole number that is in the order of the values. No type of its own: it would hold nothing more than the number.
pub fn key(pattern: u32) -> u32
    ensures { result ≡ key_of pattern }
{
    let size = pattern % 2147483648;
    if 2147483648 <= pattern {
        2147483648 - size
    } else {
        2147483648 + size
    }
}

// The pattern with this key.
pub fn pattern_of_key(k: u32) -> u32
    requires { 0 < k }
    ensures { result ≡ pattern_of_key k }
{
    if 2147483648 <= k {
        k - 2147483648
    } else {
        k.wrapping_neg()
    }
}

// Is the value of a below that of b?
pub fn is_below(a: u32, b: u32) -> bool
    ensures { result ≡ lt_z (pattern_value a) (pattern_value b) }
{
    key(a) < key(b)
}

// Are the values of a and b equal? Neither is below the other.
pub fn is_equal(a: u32, b: u32) -> bool
    ensures { result ≡ not (lt_z (pattern_value a) (pattern_value b)) and not (lt_z (pattern_value b) (pattern_value a)) }
{
    key(a) == key(b)
}
