// What each line reaches: a table of 256 rows, a row for each rank.
ghost use Rattle.std.specs.Prelude.{◌≡◌, ℕ, false, ◌&&◌, ◌||◌, ◌==◌, nat_lt};
ghost use Rattle.store.specs.Bits.{bit, spot, linked};

use crate::row::Row;
use crate::sizes::MOST_LINES;
use std::array;

#[derive(Clone, Copy)]
pub struct Rows {
    rows: [Row; MOST_LINES],
}

impl Rows {
    pub fn empty() -> Rows
        ensures { (i j : ℕ) → spot result i j ≡ false }
    {
        Rows {
            rows: [Row::empty(); MOST_LINES],
        }
    }

    // The ranks that the line at this rank reaches; none beyond the last.
    pub fn row(&self, rank: usize) -> Row
        ensures { (k : ℕ) → bit result k ≡ spot self.now rank k }
    {
        self.rows.get(rank).copied().unwrap_or(Row::empty())
    }

    pub fn has(&self, from: usize, to: usize) -> bool
        ensures { result ≡ spot self.now from to }
    {
        self.rows.get(from).is_some_and(|row| row.has(to))
    }

    // The line at `from` reaches the line at `to`.
    pub fn add(&mut self, from: usize, to: usize)
        ensures { (i j : ℕ) → spot self.new i j ≡ (spot self.old i j || ((nat_lt from 256 && i == from) && (nat_lt to 256 && j == to))) }
    {
        // An index, since after a write through `get_mut` the other rows are not known.
        if from < MOST_LINES {
            self.rows[from].add(to);
        }
    }

    // One link more: whatever leads to its start now reaches its end, and all that its end reaches.
    pub fn join(&mut self, from: usize, to: usize)
        ensures { (i j : ℕ) → spot self.new i j ≡ linked (spot self.old) from to i j }
    {
        let mut gained = self.row(to);
        gained.add(to);
        for (rank, row) in self.rows.iter_mut().enumerate() {
            if rank == from || row.has(from) {
                row.join(&gained);
            }
        }
    }

    // The same table read backwards: what each line is reached by.
    pub fn turned(&self) -> Rows
        ensures { (i j : ℕ) → spot result i j ≡ spot self.now j i }
    {
        let mut turned = Rows::empty();
        for (to, row) in turned.rows.iter_mut().enumerate() {
            *row = self.column(to);
        }
        turned
    }

    // The ranks of the lines that reach the line at `to`.
    fn column(&self, to: usize) -> Row
        ensures { (k : ℕ) → bit result k ≡ spot self.now k to }
    {
        Row::from_fn(|from| self.has(from, to))
    }
}
