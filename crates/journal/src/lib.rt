// The log of a volume: records of changes, the links between those of a cell, and what can be found along them.
#![tactic(auto)]

pub mod append;
pub mod faults;
pub mod log;
pub mod record;
pub mod walk;
