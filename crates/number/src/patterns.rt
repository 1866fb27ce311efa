// What the patterns of every format of 32 bits share: the sign bit, the highest.
ghost use Rattle.std.specs.Prelude.{◌≡◌};
ghost use Rattle.number.specs.Patterns.{weight_above};

pub fn sign_weight(negative: bool) -> u32
    ensures { result ≡ weight_above 31 negative }
{
    if negative { 2147483648 } else { 0 }
}
