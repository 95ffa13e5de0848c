// No store holds more.
pub const MOST_LINES: usize = 256;

pub const MOST_LINKS: usize = 1024;

pub const MOST_STRIKES: usize = 512;

// A number for each list of a store: how many records it holds, can hold, or lost.
#[derive(Clone, Copy, PartialEq, Eq, Debug, Default)]
pub struct Sizes {
    pub lines: usize,
    pub links: usize,
    pub strikes: usize,
}
