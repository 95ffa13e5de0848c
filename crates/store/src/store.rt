// The trait of stores.
use crate::records::{Line, Link, Strike};
use crate::rows::Rows;
use crate::sizes::Sizes;
use kinds::content::Content;
use kinds::identifier::Identifier;
use patch::names::LineName;

// Why a record was not added. A record that is there already is told before a list that is full.
#[derive(Clone, Copy, PartialEq, Eq, Debug)]
pub enum Unadded {
    Present,
    Full,
}

// A store holds three lists without repeats, each in ascending order: lines by name; links by first name, second name
// and owner; strikes by name and owner. Its capacities never change. A rank counts from 0.
// Each list has calls of its own, and not one call for every kind of record: a store would implement one more trait three times,
// and who asks would write the record's type where the name of the call says it. A caller goes over a list by its ranks: an iterator
// for each list would be a type of its own.
pub trait Store {
    type Id: Identifier;

    type Content: Content;

    fn capacities(&self) -> Sizes;

    fn counts(&self) -> Sizes;

    // The record at a rank; nothing beyond the last.
    fn line(&self, rank: usize) -> Option<Line<Self::Id, Self::Content>>;

    fn link(&self, rank: usize) -> Option<Link<Self::Id>>;

    fn strike(&self, rank: usize) -> Option<Strike<Self::Id>>;

    // The rank of the line that has this name, or nothing where no line has it.
    fn rank(&self, name: &LineName<Self::Id>) -> Option<usize>;

    fn add_line(&mut self, line: &Line<Self::Id, Self::Content>) -> Result<(), Unadded>;

    fn add_link(&mut self, link: &Link<Self::Id>) -> Result<(), Unadded>;

    fn add_strike(&mut self, strike: &Strike<Self::Id>) -> Result<(), Unadded>;

    // The lines that belong to the patch go, and the links and strikes that it owns. Tells how many went of each list.
    fn drop_patch(&mut self, patch: &Self::Id) -> Sizes;

    // What each line reaches, by links whose ends are both in the lines list.
    fn rows(&self) -> Rows {
        let mut rows = Rows::empty();
        for link in (0..self.counts().links).filter_map(|at| self.link(at)) {
            if let Some(from) = self.rank(&link.from) {
                if let Some(to) = self.rank(&link.to) {
                    rows.join(from, to);
                }
            }
        }
        rows
    }

    // Whether one or more links lead from the line at one rank to the line at another. A rank beyond the last gives no.
    fn reaches(&self, from: usize, to: usize) -> bool {
        self.rows().has(from, to)
    }
}
