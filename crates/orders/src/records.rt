// The records of a file, one after the other.
ghost use Rattle.std.specs.Prelude.{◌≡◌};
ghost use Rattle.orders.specs.File.{records};
ghost use Rattle.orders.specs.Answers.{to_come};

use crate::read::record_at;
use crate::{Order, Record};

// Those that are still to be read, up to the first that is cut or refused.
#[derive(Drop)]
pub struct Records<'a> {
    houses: u8,
    rest: &'a [u8],
}

impl<'a> Records<'a> {
    // All records at the front of the bytes, where there are `houses` houses.
    pub fn new(houses: u8, bytes: &'a [u8]) -> Records<'a>
        ensures { to_come result ≡ records houses bytes.now }
    {
        Records {
            houses,
            rest: bytes,
        }
    }
}

impl<'a> Iterator for Records<'a> {
    ghost use Rattle.std.specs.Iterator.{YieldsFirstBy, item_count};
    ghost use Rattle.orders.specs.Answers.{recorded, to_come};

    // A record, the entries of its order beside it.
    type Item = (Record, Order);

    ghost next_gives = { YieldsFirstBy recorded to_come };

    ghost remaining = { item_count to_come };

    fn next(&mut self) -> Option<(Record, Order)> {
        let Ok((record, order, next)) = record_at(self.houses, self.rest, 0) else {
            return None;
        };
        self.rest = &self.rest[next..];
        Some((record, order))
    }
}
