// Patches: line names, entries, refusals, and the reader of patch texts.
#![tactic(auto)]

mod columns;
pub mod entries;
pub mod names;
pub mod reader;
pub mod refusals;
mod values;
