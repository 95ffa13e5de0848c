// Work on lent slots of records.
ghost use Rattle.std.specs.Prelude.{◌<◌, ◌≤◌, length, MatchResult};

use std::cmp::Ordering;
use store::keys::{Owned, Record};

// The place of the record that has this key, or the place where it would go. Halves what is left until none is.
// A loop, since the library's search goes on where it has met the key.
pub(crate) fn seek<R: Record>(records: &[R], key: &R::Key) -> Result<usize, usize>
    ensures within { MatchResult result (λ at. at < length records.now) (λ at. at ≤ length records.now) }
{
    let mut low = 0;
    let mut high = records.len();
    while low < high {
        let middle = low + (high - low) / 2;
        match records[middle].compare(key) {
            Ordering::Less => low = middle + 1,
            Ordering::Equal => return Ok(middle),
            Ordering::Greater => high = middle,
        }
    }
    Err(low)
}

// Moves the records from `at` to `count` up by one, and puts the new one into the gap.
pub(crate) fn open<R: Copy>(slots: &mut [R], at: usize, count: usize, added: R)
    requires place { at ≤ count }
    requires room { count < length slots.old }
{
    slots.copy_within(at..count, at + 1);
    slots[at] = added;
}

// Moves those of the first `count` records that are not the owner's to the front, in their order, and says how many they are.
// A loop, since the library takes elements out of what owns them, such as a `Vec`, and not of lent slots.
pub(crate) fn keep_others<O, R: Copy + Owned<O>>(slots: &mut [R], count: usize, owner: &O) -> usize
    requires { count ≤ length slots.old }
    ensures within { result ≤ count }
{
    let mut front = 0;
    for at in 0..count {
        let moved = slots[at];
        if !moved.is_owned_by(owner) {
            slots[front] = moved;
            front += 1;
        }
    }
    front
}
