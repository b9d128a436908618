// The steps of a house over any host: decided, noted, appended, synced, and only then said.
// Each is lent the host, the ledger and the shelves. No struct holds the three, with the tie between them and the house as its
// invariants: a host that fails ends the tie, and the shelves are their owner's.
#![tactic(auto)]

pub mod ask;
pub mod broken;
pub mod commit;
pub mod hold;
pub mod host;
pub mod learn;
pub mod rule;
pub mod start;
pub mod sync;
