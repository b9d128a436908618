// A file read from its front: where its whole records end.
#![tactic(auto)]

ghost use Rattle.scan.specs.Scan.{Ends};

use orders::Refusal;
use orders::read::{ReadError, record_at};

#[cfg(test)]
mod answers;
pub mod checksum;
#[cfg(test)]
mod edges;
#[cfg(test)]
mod examples;

// The place behind the last whole record, where there are `houses` houses. A file that ends inside a record is read up to the last whole one.
pub fn whole_end(houses: u8, bytes: &[u8]) -> Result<usize, Refusal>
    ensures { Ends houses bytes.now result }
{
    // Not a walk by Records: that ends in the same way at a cut and at a refusal, and keeps no place.
    let mut at = 0;
    loop {
        match record_at(houses, bytes, at) {
            Ok((_, _, next)) => at = next,
            Err(ReadError::Cut) => return Ok(at),
            Err(ReadError::Refused(why)) => return Err(why),
        }
    }
}
