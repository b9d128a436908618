// What the readers answer, as the tests compare it: the place behind it, or why there is none.
use crate::whole_end;
use orders::Refusal;
use orders::read::{ReadError, read_message, record_at};

// A refusal by 1, one by 2, and bytes that are cut.
pub const BAD_FORM: Result<usize, ReadError> = Err(ReadError::Refused(Refusal::BadForm));

pub const RANGE: Result<usize, ReadError> = Err(ReadError::Refused(Refusal::OutOfRange));

pub const CUT: Result<usize, ReadError> = Err(ReadError::Cut);

pub fn of_record(houses: u8, bytes: &[u8]) -> Result<usize, ReadError> {
    let (_, _, next) = record_at(houses, bytes, 0)?;
    Ok(next)
}

pub fn of_message(houses: u8, bytes: &[u8]) -> Result<usize, ReadError> {
    read_message(houses, bytes)?;
    Ok(bytes.len())
}

pub fn of_file(houses: u8, bytes: &[u8]) -> Result<usize, ReadError> {
    Ok(whole_end(houses, bytes)?)
}
