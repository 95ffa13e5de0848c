// A set of ranks below 256, kept as bits, the lowest rank in the lowest bit.
ghost use Rattle.std.specs.Prelude.{◌≡◌, ℕ, ◌^◌, ◌<◌, true, false, not, ◌&&◌, ◌||◌, Decides, MatchOption, ◌==◌, nat_lt, slice_index};
ghost use Rattle.store.specs.Bits.{bit};

use crate::sizes::MOST_LINES;
use std::array;

const WORD_BITS: usize = 64;

const WORDS: usize = MOST_LINES / WORD_BITS;

#[derive(Clone, Copy)]
pub struct Row {
    words: [u64; WORDS],
}

impl Row {
    pub fn empty() -> Row
        ensures { (k : ℕ) → bit result k ≡ false }
    {
        Row { words: [0; WORDS] }
    }

    // The ranks below a number.
    pub fn below(end: usize) -> Row
        ensures { (k : ℕ) → bit result k ≡ (nat_lt k 256 && nat_lt k end) }
    {
        Row::from_fn(|rank| rank < end)
    }

    // The ranks that pass the test.
    pub(crate) fn from_fn<F: Fn(usize) -> bool>(test: F) -> Row
        requires { F.IsAlwaysCallable test }
        ensures { (k : ℕ) → k < 256 → F.post test k (bit result k) }
    {
        let mut row = Row::empty();
        for rank in 0..MOST_LINES {
            if test(rank) {
                row.add(rank);
            }
        }
        row
    }

    pub fn has(&self, rank: usize) -> bool
        ensures { result ≡ bit self.now rank }
    {
        self.words
            .get(rank / WORD_BITS)
            .is_some_and(|word| (word >> (rank % WORD_BITS)) & 1 == 1)
    }

    // A rank of 256 or more changes nothing.
    pub fn add(&mut self, rank: usize)
        ensures { (k : ℕ) → bit self.new k ≡ (bit self.old k || (nat_lt rank 256 && k == rank)) }
    {
        // An index, since after a write through `get_mut` the other words are not known.
        if rank < MOST_LINES {
            self.words[rank / WORD_BITS] |= 1 << (rank % WORD_BITS);
        }
    }

    // The other's ranks too.
    pub fn join(&mut self, other: &Row)
        ensures { (k : ℕ) → bit self.new k ≡ (bit self.old k || bit other.now k) }
    {
        *self = self.combined(*other, |word, other| word | other);
    }

    // Only the ranks that the other has too.
    pub fn keep(&mut self, other: &Row)
        ensures { (k : ℕ) → bit self.new k ≡ (bit self.old k && bit other.now k) }
    {
        *self = self.combined(*other, |word, other| word & other);
    }

    // Without the other's ranks.
    pub fn remove(&mut self, other: &Row)
        ensures { (k : ℕ) → bit self.new k ≡ (bit self.old k && not (bit other.now k)) }
    {
        *self = self.combined(*other, |word, other| word & !other);
    }

    pub fn is_empty(&self) -> bool
        ensures { Decides result ((k : ℕ) → bit self.now k ≡ false) }
    {
        self.least().is_none()
    }

    // The least rank, if there is any.
    pub fn least(&self) -> Option<usize>
        ensures { MatchOption result ((k : ℕ) → bit self.now k ≡ false) (λ rank. (bit self.now rank ≡ true) × ((k : ℕ) → k < rank → bit self.now k ≡ false)) }
    {
        let at = self.words.iter().position(|word| *word != 0)?;
        Some(at * WORD_BITS + self.words[at].trailing_zeros() as usize)
    }

    // Each word is what the operation makes of both rows' words, which have 64 bits.
    fn combined<F: Fn(u64, u64) -> u64>(self, other: Row, operation: F) -> Row
        requires { F.IsAlwaysCallable operation }
        ensures words { (j : ℕ) → j < 4 → F.post operation (slice_index self.words j) (slice_index other.words j) (slice_index result.words j) }
        ensures fits { (j : ℕ) → slice_index other.words j < 2 ^ 64 }
    {
        Row {
            words: array::from_fn(|at| operation(self.words[at], other.words[at])),
        }
    }
}
