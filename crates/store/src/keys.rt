// The order of records, and whose they are.
use crate::records::{Line, Link, Strike};
use kinds::content::Content;
use kinds::identifier::Identifier;
use patch::names::LineName;
use std::cmp::Ordering;

// A record that stands in a list by its key: no two records of a list have equal keys.
pub trait Record: Copy {
    type Key: Copy;

    fn key(&self) -> Self::Key;

    // How the record's key stands to another, under a total order of keys.
    fn compare(&self, key: &Self::Key) -> Ordering;
}

// A record that goes when its owner is dropped.
pub trait Owned<O> {
    fn is_owned_by(&self, owner: &O) -> bool;
}

// Lines stand by name.
impl<I: Identifier, C: Content> Record for Line<I, C> {
    type Key = LineName<I>;

    fn key(&self) -> LineName<I> {
        self.name
    }

    fn compare(&self, key: &LineName<I>) -> Ordering {
        self.name.cmp(key)
    }
}

// A line goes with the patch that it belongs to.
impl<I: Identifier, C: Content> Owned<I> for Line<I, C> {
    fn is_owned_by(&self, owner: &I) -> bool {
        self.name.belongs_to(owner)
    }
}

// Links stand by first name, second name and owner.
impl<I: Identifier> Record for Link<I> {
    type Key = Link<I>;

    fn key(&self) -> Link<I> {
        *self
    }

    fn compare(&self, key: &Link<I>) -> Ordering {
        self.cmp(key)
    }
}

impl<I: Identifier> Owned<I> for Link<I> {
    fn is_owned_by(&self, owner: &I) -> bool {
        self.owner == *owner
    }
}

// Strikes stand by name and owner. Links and strikes are their own keys, in impls of their own: one for both would need one more trait.
impl<I: Identifier> Record for Strike<I> {
    type Key = Strike<I>;

    fn key(&self) -> Strike<I> {
        *self
    }

    fn compare(&self, key: &Strike<I>) -> Ordering {
        self.cmp(key)
    }
}

impl<I: Identifier> Owned<I> for Strike<I> {
    fn is_owned_by(&self, owner: &I) -> bool {
        self.owner == *owner
    }
}
