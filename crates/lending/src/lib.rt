// What the loan volumes are made of: branch numbers, text lines, and memory for the greatest capacities.
#![tactic(auto)]

pub mod memory;
pub mod shelf;
