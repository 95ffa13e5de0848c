// A volume over any store: apply, unapply and page.
#![tactic(auto)]

mod adding;
mod applying;
mod entries;
mod faults;
mod standing;
mod unapplying;
pub mod volume;
