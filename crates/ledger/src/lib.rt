// What a house's file says, but for the shelves, which stand in a lent slice of words.
#![tactic(auto)]

ghost use Rattle.std.specs.Prelude.{◌≤◌};

use entries::named::NamedOrder;
use names::NameIndex;
use orders::Refusal;

pub mod admit;
pub mod apply;
mod failure;
pub mod getters;
mod held;
pub mod opening;

// The most orders that a house holds back, its most starts, and the most bytes of its file.
pub const MAX_HELD: usize = 64;

pub const MAX_STARTS: u32 = 65535;

pub const MAX_BYTES: usize = 4194304;

// How many shelves a house has.
pub const SHELVES: usize = 4096;

// What follows from the records of a house's file.
// The shelves are lent to each call and are no part of it: who owns both, as a house of an audit does, could not own a ledger that borrows them.
#[derive(Drop)]
pub struct Ledger {
    pub(crate) house: u8,
    // how often it began
    pub(crate) start: u32,
    // the orders held back, in the order of holding
    pub(crate) held: Vec<NamedOrder>,
    // the names that it ever held
    pub(crate) ever: NameIndex,
    // the names that it ruled
    pub(crate) ruled: NameIndex,
    // how long the file is
    pub(crate) bytes: usize,
    ghost limits: { (start ≤ 65535) × (bytes ≤ 4194304) },
}

// A hold that is to be written down, or one of an order that is held back already.
#[derive(Clone, Copy, Debug, PartialEq, Eq)]
pub enum Admission {
    Fresh,
    Again,
}

// Why a file was not opened.
#[derive(Clone, Copy, Debug, PartialEq, Eq)]
pub enum Trouble {
    Refused(Refusal),
    NoMemory,
}
