// Why a file was not opened: made of a refusal or of want of memory.
ghost use Rattle.std.specs.Prelude.{◌≡◌};
ghost use Rattle.ledger.specs.declared.Trouble.TheVariants.{Refused, NoMemory};

use crate::Trouble;
use orders::Refusal;
use std::alloc::AllocError;

impl From<Refusal> for Trouble {
    ghost from_gives = { λ why e. e ≡ Refused why };

    fn from(why: Refusal) -> Trouble {
        Trouble::Refused(why)
    }
}

impl From<AllocError> for Trouble {
    ghost from_gives = { λ _ e. e ≡ NoMemory };

    fn from(_e: AllocError) -> Trouble {
        Trouble::NoMemory
    }
}
