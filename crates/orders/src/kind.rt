// The first byte of each record and message, its kind.
ghost use Rattle.orders.specs.Kind.{IsKind};

use crate::Refusal;

#[derive(Clone, Copy, PartialEq, Eq)]
pub enum Kind {
    Began = 1,
    Held,
    Done,
    Dropped,
    Ruled,
    Hold,
    Yes,
    Told,
}

impl TryFrom<u8> for Kind {
    type Error = Refusal;

    ghost try_from_gives = { IsKind };

    fn try_from(byte: u8) -> Result<Kind, Refusal> {
        match byte {
            1 => Ok(Kind::Began),
            2 => Ok(Kind::Held),
            3 => Ok(Kind::Done),
            4 => Ok(Kind::Dropped),
            5 => Ok(Kind::Ruled),
            6 => Ok(Kind::Hold),
            7 => Ok(Kind::Yes),
            8 => Ok(Kind::Told),
            _ => Err(Refusal::BadForm),
        }
    }
}
