// Texts: fixed texts that need no allocation, the numbers in a text and its pieces.
#![tactic(auto)]

pub mod numbers;
pub mod pieces;
pub mod text;
