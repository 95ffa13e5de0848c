// An ordered table over lent memory, for any record kind with a total order of keys.
ghost use Rattle.std.specs.Prelude.{◌≤◌, length};

use crate::slots::{keep_others, open, seek};
use store::keys::{Owned, Record};
use store::store::Unadded;

// The records are the first `count` of the slots, ascending by key. A count beside them, since the memory is lent and nothing is
// allocated.
#[derive(Drop)]
pub struct Table<'m, R> {
    slots: &'m mut [R],
    count: usize,
    ghost within: { count ≤ length slots.now },
}

impl<'m, R: Record> Table<'m, R> {
    ghost use Rattle.std.specs.Prelude.{◌≡◌, ◌+◌, ◌≤◌, min, [], length, take, OnErr, OnOk};
    ghost use Rattle.std.specs.List.{slice_get};
    ghost use Rattle.flat.specs.Items.{items, room};

    // An empty table, whatever the memory holds. Its capacity is the number of slots, but no more than `most`.
    pub fn new(slots: &'m mut [R], most: usize) -> Table<'m, R>
        ensures empty { items result ≡ [] }
        ensures capacity { room result ≡ min most (length slots.old) }
    {
        let capacity = most.min(slots.len());
        Table {
            slots: &mut slots[..capacity],
            count: 0,
        }
    }

    pub fn len(&self) -> usize
        ensures value { result ≡ length (items self.now) }
        ensures within { result ≤ length self.now.slots.now }
        ensures front { take result self.now.slots.now ≡ items self.now }
    {
        self.count
    }

    pub fn capacity(&self) -> usize
        ensures { result ≡ room self.now }
    {
        self.slots.len()
    }

    // The records, ascending.
    pub fn all(&self) -> &[R]
        ensures { result.now ≡ items self.now }
    {
        &self.slots[..self.len()]
    }

    // The record at a rank counted from 0; nothing beyond the last.
    pub fn get(&self, rank: usize) -> Option<R>
        ensures { result ≡ slice_get (items self.now) rank }
    {
        self.all().get(rank).copied()
    }

    // The rank of the record with this key.
    pub fn rank(&self, key: &R::Key) -> Option<usize> {
        seek(self.all(), key).ok()
    }

    // Adds the record at its place, unless its key is there or the table is full.
    pub fn insert(&mut self, added: R) -> Result<(), Unadded>
        ensures room { room self.new ≡ room self.old }
        ensures more { OnOk result (length (items self.new) ≡ length (items self.old) + 1) }
        ensures same { OnErr result (items self.new ≡ items self.old) }
    {
        let Err(at) = seek(self.all(), &added.key()) else {
            return Err(Unadded::Present);
        };
        let count = self.len();
        if self.capacity() <= count {
            return Err(Unadded::Full);
        }
        open(self.slots, at, count, added);
        self.count = count + 1;
        Ok(())
    }

    // Removes the owner's records, and says how many they were.
    pub fn remove_owned<O>(&mut self, owner: &O) -> usize
    where
        R: Owned<O>,
        ensures room { room self.new ≡ room self.old }
        ensures gone { result + length (items self.new) ≡ length (items self.old) }
    {
        let count = self.len();
        let left = keep_others(self.slots, count, owner);
        self.count = left;
        count - left
    }
}
