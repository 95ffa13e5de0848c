// The flat store: three ordered tables over lent memory.
#![tactic(auto)]

pub mod flat_store;
mod slots;
pub mod table;
