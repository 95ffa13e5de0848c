// The choice of the next line of a page.
ghost use Rattle.std.specs.Prelude.{◌≡◌, ◌+◌, ◌<◌, ◌≤◌, true, IfSome};
ghost use Rattle.std.specs.Iterator.{at_most};
ghost use Rattle.store.specs.Bits.{bit};
ghost use Rattle.page.specs.Ranks.{ranks};

use crate::listing::Spot;
use store::row::Row;
use store::rows::Rows;
use store::sizes::MOST_LINES;

// The spots of a page, in their order.
#[derive(Drop)]
pub struct Lister {
    // What each line reaches, and what each line is reached by.
    after: Rows,
    before: Rows,
    // The live lines that are not listed yet.
    free: Row,
    // The knot that was begun last, and what every line listed so far reaches.
    knot: Row,
    shared: Row,
    // Where the line stands that was listed last. Before the first, the block is 0.
    last: Spot,
    // Each block and each knot begins with a line that was free.
    ghost blocks: { last.block + ranks free ≤ 256 },
    ghost knots: { last.knot + ranks free ≤ 256 },
}

impl Lister {
    pub(crate) fn new(reach: &Rows, live: &Row) -> Lister {
        Lister {
            after: *reach,
            before: reach.turned(),
            free: *live,
            knot: Row::empty(),
            shared: *live,
            last: Spot::default(),
        }
    }

    // The line to list next: the knot begun goes on, else the least line that is ready begins one.
    fn next_rank(&self) -> Option<usize>
        ensures free { IfSome result (λ rank. bit self.now.free rank ≡ true) }
    {
        let mut begun = self.knot;
        begun.keep(&self.free);
        begun.least().or_else(|| self.least_ready())
    }

    fn least_ready(&self) -> Option<usize>
        ensures free { IfSome result (λ rank. bit self.now.free rank ≡ true) }
    {
        (0..MOST_LINES).find(|rank| self.free.has(*rank) && self.is_ready(*rank))
    }

    // A line is ready when all that reach it from outside its knot are listed.
    fn is_ready(&self, rank: usize) -> bool {
        let mut missing = self.before.row(rank);
        missing.remove(&self.after.row(rank));
        missing.keep(&self.free);
        missing.is_empty()
    }

    // Whether every line listed so far reaches every line that is not: then a block ends here.
    fn at_cut(&self) -> bool {
        let mut unreached = self.free;
        unreached.remove(&self.shared);
        unreached.is_empty()
    }

    // Where the line stands that follows on the last one.
    fn place(&self, rank: usize) -> Spot
        ensures block { result.block ≤ self.now.last.block + 1 }
        ensures knot { result.knot ≤ self.now.last.knot + 1 }
    {
        let last = self.last;
        let (block, knot) = if self.knot.has(rank) {
            (last.block, last.knot)
        } else if self.at_cut() {
            (last.block + 1, 1)
        } else {
            (last.block, last.knot + 1)
        };
        Spot { block, knot, rank }
    }

    // The line is listed now.
    fn take(&mut self, rank: usize)
        ensures last { self.new.last ≡ self.old.last }
        ensures fewer { bit self.old.free rank ≡ true → ranks self.new.free < ranks self.old.free }
    {
        let mut listed = Row::empty();
        listed.add(rank);
        let reached = self.after.row(rank);
        let mut knot = self.before.row(rank);
        knot.keep(&reached);
        knot.join(&listed);
        self.knot = knot;
        self.free.remove(&listed);
        self.shared.keep(&reached);
    }
}

// Each call lists a line that was free.
impl Iterator for Lister {
    type Item = Spot;

    ghost remaining = { λ s. at_most (ranks s.free) };

    fn next(&mut self) -> Option<Spot> {
        let rank = self.next_rank()?;
        let spot = self.place(rank);
        self.take(rank);
        self.last = spot;
        Some(spot)
    }
}
