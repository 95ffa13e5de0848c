ghost use Rattle.std.specs.Prelude.{[], ◌≡◌};
ghost use Rattle.flat.specs.Items.{items, room};

use crate::memory::{LoanLine, LoanLink, LoanStrike};
use flat::flat_store::FlatStore;
use kinds::branch::BranchNumber;
use kinds::text_line::TextLine;
use store::sizes::{MOST_LINES, MOST_LINKS, MOST_STRIKES};
use volume::volume::Volume;

pub type LoanVolume<'m> = Volume<FlatStore<'m, BranchNumber, TextLine>>;

// Memory for a volume of the greatest capacities.
#[derive(Drop)]
pub struct Shelf {
    lines: [LoanLine; MOST_LINES],
    links: [LoanLink; MOST_LINKS],
    strikes: [LoanStrike; MOST_STRIKES],
}

impl Shelf {
    // Which records fill the memory does not matter: a store over any memory begins empty.
    pub fn new() -> Shelf {
        Shelf {
            lines: [LoanLine::default(); MOST_LINES],
            links: [LoanLink::default(); MOST_LINKS],
            strikes: [LoanStrike::default(); MOST_STRIKES],
        }
    }

    // An empty volume over this memory.
    pub fn volume(&mut self) -> LoanVolume<'_>
        ensures empty { (items result.store.lines ≡ []) × (items result.store.links ≡ []) × (items result.store.strikes ≡ []) }
        ensures capacity { (room result.store.lines ≡ 256) × (room result.store.links ≡ 1024) × (room result.store.strikes ≡ 512) }
    {
        let Shelf {
            lines,
            links,
            strikes,
        } = self;
        Volume::new(FlatStore::new(lines, links, strikes))
    }
}
