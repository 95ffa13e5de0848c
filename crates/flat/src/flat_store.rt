ghost use Rattle.std.specs.Prelude.{◌≡◌, min, [], length};
ghost use Rattle.flat.specs.Items.{items, room};

use crate::table::Table;
use kinds::content::Content;
use kinds::identifier::Identifier;
use patch::names::LineName;
use store::records::{Line, Link, Strike};
use store::sizes::{MOST_LINES, MOST_LINKS, MOST_STRIKES, Sizes};
use store::store::{Store, Unadded};

#[derive(Drop)]
pub struct FlatStore<'m, I, C> {
    lines: Table<'m, Line<I, C>>,
    links: Table<'m, Link<I>>,
    strikes: Table<'m, Strike<I>>,
}

impl<'m, I: Identifier, C: Content> FlatStore<'m, I, C> {
    // An empty store over any old memory. A capacity is the number of slots handed, or the greatest that a store may have.
    pub fn new(
        lines: &'m mut [Line<I, C>],
        links: &'m mut [Link<I>],
        strikes: &'m mut [Strike<I>],
    ) -> FlatStore<'m, I, C>
        ensures lines { (items result.lines ≡ []) × (room result.lines ≡ min 256 (length lines.old)) }
        ensures links { (items result.links ≡ []) × (room result.links ≡ min 1024 (length links.old)) }
        ensures strikes { (items result.strikes ≡ []) × (room result.strikes ≡ min 512 (length strikes.old)) }
    {
        FlatStore {
            lines: Table::new(lines, MOST_LINES),
            links: Table::new(links, MOST_LINKS),
            strikes: Table::new(strikes, MOST_STRIKES),
        }
    }
}

// Three times the same, one for each list: `Store` says why.
impl<'m, I: Identifier, C: Content> Store for FlatStore<'m, I, C> {
    type Id = I;

    type Content = C;

    fn capacities(&self) -> Sizes {
        Sizes {
            lines: self.lines.capacity(),
            links: self.links.capacity(),
            strikes: self.strikes.capacity(),
        }
    }

    fn counts(&self) -> Sizes {
        Sizes {
            lines: self.lines.len(),
            links: self.links.len(),
            strikes: self.strikes.len(),
        }
    }

    fn line(&self, rank: usize) -> Option<Line<I, C>> {
        self.lines.get(rank)
    }

    fn link(&self, rank: usize) -> Option<Link<I>> {
        self.links.get(rank)
    }

    fn strike(&self, rank: usize) -> Option<Strike<I>> {
        self.strikes.get(rank)
    }

    fn rank(&self, name: &LineName<I>) -> Option<usize> {
        self.lines.rank(name)
    }

    fn add_line(&mut self, line: &Line<I, C>) -> Result<(), Unadded> {
        self.lines.insert(*line)
    }

    fn add_link(&mut self, link: &Link<I>) -> Result<(), Unadded> {
        self.links.insert(*link)
    }

    fn add_strike(&mut self, strike: &Strike<I>) -> Result<(), Unadded> {
        self.strikes.insert(*strike)
    }

    fn drop_patch(&mut self, patch: &I) -> Sizes {
        Sizes {
            lines: self.lines.remove_owned(patch),
            links: self.links.remove_owned(patch),
            strikes: self.strikes.remove_owned(patch),
        }
    }
}
