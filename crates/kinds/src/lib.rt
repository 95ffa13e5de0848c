// Kinds of identifiers and of contents.
#![tactic(auto)]

pub mod branch;
pub mod content;
pub mod fingerprint;
pub mod identifier;
mod pairs;
pub mod stock_row;
pub mod text_line;
pub mod written;
