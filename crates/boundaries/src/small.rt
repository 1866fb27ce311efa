// Strips so small that no sum of 4,096 of them is too large: their exponent fields are below 242.
ghost use Rattle.std.specs.Prelude.{◌≡◌};
ghost use Rattle.theory.specs.Lists.{all};
ghost use Rattle.boundaries.specs.Steps.{small_strip};

fn is_small(pattern: u32) -> bool
    ensures { result ≡ small_strip pattern }
{
    pattern % 2147483648 < 2030043136
}

pub fn are_small(strips: &[u32]) -> bool
    ensures { result ≡ all small_strip strips.now }
{
    strips.iter().all(|&p| is_small(p))
}
