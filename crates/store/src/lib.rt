// What a store is: its records, the trait, and rows of bits that tell what reaches what.
#![tactic(auto)]

pub mod keys;
pub mod records;
pub mod room;
pub mod row;
pub mod rows;
pub mod sizes;
pub mod store;
