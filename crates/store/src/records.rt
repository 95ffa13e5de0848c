// The records of the three lists of a store.
use patch::names::LineName;

#[derive(Clone, Copy, PartialEq, Eq, Default)]
pub struct Line<I, C> {
    pub name: LineName<I>,
    pub content: C,
}

// A link leads from one line to another. The owner is the patch whose entry gave it. Ordered by these three.
#[derive(Clone, Copy, PartialEq, Eq, PartialOrd, Ord, Default)]
pub struct Link<I> {
    pub from: LineName<I>,
    pub to: LineName<I>,
    pub owner: I,
}

// While a strike against it stands, a line is struck. Ordered by line, then by owner.
#[derive(Clone, Copy, PartialEq, Eq, PartialOrd, Ord, Default)]
pub struct Strike<I> {
    pub line: LineName<I>,
    pub owner: I,
}
