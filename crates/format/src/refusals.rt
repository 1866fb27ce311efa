// The number of each refusal, and what a refusal is made of.
ghost use Rattle.std.specs.Prelude.{◌≡◌};
ghost use Rattle.format.specs.declared.ListRefusal.TheVariants.{Whole};
ghost use Rattle.format.specs.declared.Refusal.TheVariants.{NoSuchDirection};
ghost use Rattle.format.specs.Refusals.{refusal_number};

use crate::{ListRefusal, Refusal};
use theory::NoDirection;

// The number that the papers give to a refusal.
impl From<Refusal> for u32 {
    ghost from_gives = { λ refusal number. number ≡ refusal_number refusal };

    fn from(refusal: Refusal) -> u32 {
        refusal as u32
    }
}

// A number that is no direction's is refused by 2.
impl From<NoDirection> for Refusal {
    ghost from_gives = { λ _ refusal. refusal ≡ NoSuchDirection };

    fn from(_: NoDirection) -> Refusal {
        Refusal::NoSuchDirection
    }
}

// A call that is refused as a whole.
impl From<Refusal> for ListRefusal {
    ghost from_gives = { λ why refusal. refusal ≡ Whole why };

    fn from(why: Refusal) -> ListRefusal {
        ListRefusal::Whole(why)
    }
}
