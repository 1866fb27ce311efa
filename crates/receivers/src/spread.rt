// The least and the greatest value of a list, and which of two lists has the smaller difference between them.
ghost use Rattle.std.specs.Prelude.{◌≡◌, cond};
ghost use Rattle.std.specs.Int.Signed.{lt_z};
ghost use Rattle.binary32.specs.Patterns.{pattern_value};
ghost use Rattle.receivers.specs.Stretches.{calm_as};
ghost use Rattle.receivers.specs.Spreads.{ExtremesOf, Logged};

use crate::Extremes;
use binary32::order::is_below;
use exact_sums::sums::sums_upto;

fn extremes(patterns: &[u32]) -> Extremes
    requires { Logged patterns.now }
    ensures { ExtremesOf patterns.now result }
{
    let mut least = patterns[0];
    let mut greatest = patterns[0];
    for &p in &patterns[1..] {
        if is_below(p, least) {
            least = p;
        }
        if is_below(greatest, p) {
            greatest = p;
        }
    }
    Extremes { least, greatest }
}

// Is the spread of the first at most that of the second? M - m is at most N - n exactly where M + n is at most N + m.
pub(crate) fn is_calm_as(first: &[u32], second: &[u32]) -> bool
    requires { Logged first.now × Logged second.now }
    ensures { result ≡ calm_as first.now second.now }
{
    let a = extremes(first);
    let b = extremes(second);
    sums_upto(a.greatest, b.least, b.greatest, a.least)
}
