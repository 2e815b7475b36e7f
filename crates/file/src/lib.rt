// The saved form of a volume: a header of eight bytes, then one record after another.
#![tactic(auto)]

pub mod changes;
pub mod faults;
pub mod forms;
pub mod header;
pub mod items;
pub mod letters;
pub mod records;
pub mod saved;
pub mod states;
#[cfg(test)]
mod tests;
