// The product: both significands with all their digits, so that their product has twice as many, or one less, and its cut.
ghost use Rattle.std.specs.Prelude.{◌≡◌, ◌*◌, ◌<◌, ◌^◌};
ghost use Rattle.format.specs.Formats.{Scaled};
ghost use Rattle.rounding.specs.Cut.{cut_of, Rounds};
ghost use Rattle.rounding.specs.Digits.{Leading};

use format::{Scale, Significand};
use rounding::choice::finish;
use rounding::cutting::{cut_long, drop_beyond};
use rounding::digits::normalise;
use rounding::{Cut, Rounding};
use theory::Direction;

// The cut of a * b * base ^ up / base ^ down, where a and b have all their digits: mostly all digits of the result stand at place 0 or above.
fn product_cut(scale: Scale, a: Significand, b: Significand, up: u32, down: u32) -> Cut
    requires { Scaled scale × Leading scale a × Leading scale b × (up < 2 ^ 30) × (down < 2 ^ 30) }
    ensures { result ≡ cut_of scale.base scale.digits (a * b * scale.base ^ up) (scale.base ^ down) }
{
    let n = two_words::product::product(a, b);
    if up + scale.digits <= down {
        return drop_beyond(scale, n, down - up);
    }
    cut_long(scale, n, up, down)
}

// a * b * base ^ up / base ^ down, with the sign `negative`, rounded.
pub fn product(
    scale: Scale,
    direction: Direction,
    negative: bool,
    a: Significand,
    b: Significand,
    up: u32,
    down: u32,
) -> Rounding
    requires { Scaled scale × (a < scale.bound) × (b < scale.bound) × (up < 2 ^ 29) × (down < 2 ^ 29) }
    ensures { Rounds scale.base scale.digits direction negative (a * b * scale.base ^ up) (scale.base ^ down) result }
{
    let mut m = a;
    let mut n = b;
    let mut low = down;
    if (a < scale.least) | (b < scale.least) {
        if (a == 0) | (b == 0) {
            return Rounding::zero(negative);
        }
        // Made anew: `scale` itself, handed on, is copied in the frequent way too, and a product takes 269 instructions in place of 266 in base 2.
        let made = Scale {
            base: scale.base,
            digits: scale.digits,
            least: scale.least,
            bound: scale.bound,
        };
        let first = normalise(made, a, scale.digits);
        let second = normalise(made, b, scale.digits);
        m = first.value;
        n = second.value;
        low = down + first.shift + second.shift;
    }
    let exact = product_cut(scale, m, n, up, low);
    finish(scale, direction, negative, exact)
}
