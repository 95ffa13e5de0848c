// The lines of a page in their order, with the numbers of their blocks and knots.
ghost use Rattle.std.specs.Prelude.{◌≤◌, length};

use crate::lister::Lister;
use store::row::Row;
use store::rows::Rows;
use store::sizes::MOST_LINES;

// Where a line stands on the page. Blocks count from 1, and knots from 1 in each block.
#[derive(Clone, Copy, Default)]
pub struct Spot {
    pub block: usize,
    pub knot: usize,
    pub rank: usize,
}

// A block of one line is plain, one of several lines in one knot a ring, and any other a fork.
#[derive(Clone, Copy, PartialEq, Eq, Debug)]
pub enum Kind {
    Plain,
    Fork,
    Ring,
}

impl Kind {
    pub(crate) fn name(self) -> &'static [u8] {
        match self {
            Kind::Plain => b"plain",
            Kind::Fork => b"fork",
            Kind::Ring => b"ring",
        }
    }
}

// The spots are the first `count`. A buffer with a length beside, since a listing is copied and nothing is allocated.
#[derive(Clone, Copy)]
pub struct Listing {
    spots: [Spot; MOST_LINES],
    count: usize,
    ghost within: { count ≤ 256 },
}

impl Listing {
    fn empty() -> Listing {
        Listing {
            spots: [Spot::default(); MOST_LINES],
            count: 0,
        }
    }

    // The spots, in the order of the page.
    pub(crate) fn spots(&self) -> &[Spot]
        ensures within { length result.now ≤ 256 }
    {
        &self.spots[..self.count]
    }

    pub fn len(&self) -> usize
        ensures within { result ≤ 256 }
    {
        self.count
    }

    // The spot at a place counted from 0; nothing beyond the last.
    pub fn get(&self, place: usize) -> Option<Spot> {
        self.spots().get(place).copied()
    }

    fn push(&mut self, spot: Spot) {
        if let Some(slot) = self.spots.get_mut(self.count) {
            *slot = spot;
            self.count += 1;
        }
    }

    // The kind of a block: how many lines it has, and whether they are all in its first knot.
    pub fn kind(&self, block: usize) -> Kind {
        let spots = self.spots();
        let lines = spots.iter().filter(|spot| spot.block == block).count();
        let one_knot = spots
            .iter()
            .all(|spot| spot.block != block || spot.knot == 1);
        if lines == 1 {
            Kind::Plain
        } else if one_knot {
            Kind::Ring
        } else {
            Kind::Fork
        }
    }
}

// The listing of the live lines, from what each line reaches.
pub fn list(reach: &Rows, live: &Row) -> Listing {
    let mut listing = Listing::empty();
    for spot in Lister::new(reach, live) {
        listing.push(spot);
    }
    listing
}
