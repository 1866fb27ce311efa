// Exact distances from a query, compared.
ghost use Rattle.std.specs.Prelude.{◌≡◌, true};
ghost use Rattle.std.specs.Int.Signed.{lt_z};
ghost use Rattle.binary32.specs.Patterns.{pattern_value};
ghost use Rattle.saved_lines.specs.Offsets.{nearer};

use binary32::order::is_below;
use exact_sums::sums::sums_upto;

// Is v nearer to the query than w, which is below it? It is where it is not above the query, and it is not where w is from the query on;
// between them it is exactly where their sum is below twice the query.
pub(crate) fn is_greater_nearer(v: u32, w: u32, query: u32) -> bool
    requires { lt_z (pattern_value w) (pattern_value v) ≡ true }
    ensures { result ≡ nearer (pattern_value query) (pattern_value v) (pattern_value w) }
{
    !is_below(query, v) || is_below(w, query) && !sums_upto(query, query, v, w)
}
