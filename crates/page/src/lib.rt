// The page: the live lines of a store, listed in blocks and knots.
#![tactic(auto)]

mod lister;
pub mod listing;
mod live;
pub mod page;
pub mod sheet;
mod text;
