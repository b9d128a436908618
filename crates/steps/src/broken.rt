// How a step ends where it isn't done.
ghost use Rattle.std.specs.Prelude.{◌≡◌};
ghost use Rattle.steps.specs.Troubles.{Passed};
ghost use Rattle.steps.specs.declared.broken.Trouble.TheVariants as trouble;

use orders::Refusal;
use std::alloc::AllocError;

// The disk or the post failed: the house says nothing more, and comes up again by opening its file.
#[derive(Clone, Copy, Debug, PartialEq, Eq)]
pub struct Broken;

// Refused by its number, out of memory with everything as it was, or the host failed.
#[derive(Clone, Copy, Debug, PartialEq, Eq)]
pub enum Trouble {
    Refused(Refusal),
    NoMemory,
    Down,
}

impl From<Refusal> for Trouble {
    ghost from_gives = { λ why t. t ≡ trouble.Refused why };

    fn from(why: Refusal) -> Trouble {
        Trouble::Refused(why)
    }
}

impl From<AllocError> for Trouble {
    ghost from_gives = { λ _ t. t ≡ trouble.NoMemory };

    fn from(_why: AllocError) -> Trouble {
        Trouble::NoMemory
    }
}

// What opening a file answers is answered by the house that comes up.
impl From<ledger::Trouble> for Trouble {
    ghost from_gives = { Passed };

    fn from(why: ledger::Trouble) -> Trouble {
        match why {
            ledger::Trouble::Refused(why) => Trouble::Refused(why),
            ledger::Trouble::NoMemory => Trouble::NoMemory,
        }
    }
}

impl From<Broken> for Trouble {
    ghost from_gives = { λ _ t. t ≡ trouble.Down };

    fn from(_why: Broken) -> Trouble {
        Trouble::Down
    }
}
