// The places and the neighbours of a finite pattern, straight from the pattern: keys are in the order of the values, so that
// those of neighbours differ by one.
ghost use Rattle.std.specs.Prelude.{◌≡◌, true};
ghost use Rattle.format.specs.Given.{given, gives};
ghost use Rattle.format.specs.Published.{binary32};
ghost use Rattle.units.specs.Places.{first_place, last_place};
ghost use Rattle.units.specs.Neighbours.{predecessor_of, successor_of};
ghost use Rattle.binary32.specs.Patterns.{finite, number_read, answer_written};
ghost use Rattle.binary32.specs.Places.{places_of, places_given};

use crate::order::{key, pattern_of_key};
use crate::patterns::place_of;
use crate::prepared::prepared_binary32;
use format::powers::power;
use format::{Refusal, Significand};
use units::powers_of_base::leading_power;

// ufp, ulp, predecessor and successor of a number, as patterns.
#[derive(Clone, Copy)]
pub struct Places {
    pub ufp: Result<u32, Refusal>,
    pub ulp: Result<u32, Refusal>,
    pub predecessor: Result<u32, Refusal>,
    pub successor: Result<u32, Refusal>,
}

// A finite pattern.
#[derive(Clone, Copy)]
struct FinitePattern {
    bits: u32,
    ghost is_finite: { finite bits ≡ true },
}

impl FinitePattern {
    // ufp: the power that the field stands for, and for a small number that of its leading digit.
    fn ufp(self) -> u32
        ensures { gives result ≡ answer_written (first_place binary32 (number_read self.bits)) }
    {
        let size = self.bits % 2147483648;
        if size < 8388608 {
            return leading_power(prepared_binary32().scale, size as Significand) as u32;
        }
        size / 8388608 * 8388608
    }

    // ulp: 2^k for the place k of the field, which is a small number up to k = 22.
    fn ulp(self) -> u32
        ensures { gives result ≡ answer_written (last_place binary32 (number_read self.bits)) }
    {
        let size = self.bits % 2147483648;
        let field = size / 8388608;
        if size == 0 {
            return 0;
        }
        if field < 24 {
            return power(2, place_of(field)) as u32;
        }
        (field - 23) * 8388608
    }

    // The predecessor: the key is one less.
    fn predecessor(self) -> Result<u32, Refusal>
        ensures { given result ≡ answer_written (predecessor_of binary32 (number_read self.bits)) }
    {
        let k = key(self.bits);
        if k == 8388609 {
            return Err(Refusal::TooLarge);
        }
        Ok(pattern_of_key(k - 1))
    }

    // The successor: the key is one more. That of the negative number nearest zero is minus zero.
    fn successor(self) -> Result<u32, Refusal>
        ensures { given result ≡ answer_written (successor_of binary32 (number_read self.bits)) }
    {
        let k = key(self.bits);
        if k == 4286578687 {
            return Err(Refusal::TooLarge);
        }
        if k == 2147483647 {
            return Ok(2147483648);
        }
        Ok(pattern_of_key(k + 1))
    }
}

// Both places and both neighbours.
pub fn places_of(pattern: u32) -> Places
    requires { finite pattern ≡ true }
    ensures { places_given result ≡ places_of (number_read pattern) }
{
    let finite = FinitePattern { bits: pattern };
    Places {
        ufp: Ok(finite.ufp()),
        ulp: Ok(finite.ulp()),
        predecessor: finite.predecessor(),
        successor: finite.successor(),
    }
}
