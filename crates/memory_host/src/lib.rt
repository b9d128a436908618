// Hosts in memory: one that keeps its log and what was sent, and one that fails at a chosen call, for tests.
#![tactic(auto)]

pub mod faulty;
pub mod memory;
#[cfg(test)]
mod tests;
