// What the entries of an order ask of a house's shelves and of other orders, and what they do to the shelves.
#![tactic(auto)]

pub mod entry;
pub mod named;
