// What a house remembers as the home, that is the coordinator, of orders; a stop loses it.
#![tactic(auto)]

pub use asked::Asked;
pub use memory::Home;

pub mod asked;
pub mod memory;

// How many houses there are at most; a house's number is below.
pub const HOUSES: usize = 16;

// How many orders a home asks about at most.
pub const MOST_ASKED: usize = 64;

// How many numbers a start has; a name's number is below.
pub const NUMBERS: usize = 65536;
