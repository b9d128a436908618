// What an audit finds in place of ledgers that agree.
ghost use Rattle.std.specs.Prelude.{◌≡◌};
ghost use Rattle.audit_search.specs.declared.faults.Fault.TheVariants.{NoMemory};

use orders::Refusal;
use protocol::Name;
use std::alloc::{AllocError, AllocFailed};
use std::error::Error;
use std::fmt;

#[derive(Clone, Copy, Debug, PartialEq, Eq)]
pub enum Fault {
    // the house's file is refused
    Refused(Refusal, u8),
    // the house did the order, and its home has not ruled it
    DoneWithoutRuling(u8, Name),
    // the order was ruled, and the house, one of the order's, neither holds it back nor did it
    RuledAndMissing(u8, Name),
    // want of memory says nothing of the ledgers
    NoMemory,
}

impl fmt::Display for Fault {
    fn fmt<W: fmt::Write>(&self, f: &mut fmt::Formatter<W>) -> fmt::Result {
        match self {
            Fault::Refused(why, house) => write!(f, "refused {why} {house}"),
            Fault::DoneWithoutRuling(house, name) => write!(
                f,
                "done without ruling {house} {name}"
            ),
            Fault::RuledAndMissing(house, name) => write!(f, "ruled and missing {house} {name}"),
            Fault::NoMemory => write!(f, "not enough memory"),
        }
    }
}

impl Error for Fault {}

impl From<AllocError> for Fault {
    ghost from_gives = { λ _ x. x ≡ NoMemory };

    fn from(_: AllocError) -> Fault {
        Fault::NoMemory
    }
}

impl<T: Drop> From<AllocFailed<T>> for Fault {
    ghost from_gives = { λ _ x. x ≡ NoMemory };

    fn from(_: AllocFailed<T>) -> Fault {
        Fault::NoMemory
    }
}
