use crate::names::LineName;

pub const MOST_ENTRIES: usize = 128;

// What one value line of a patch text says.
#[derive(Clone, Copy)]
pub enum Entry<I, C> {
    Add { line: LineName<I>, content: C },
    Link { from: LineName<I>, to: LineName<I> },
    Strike { line: LineName<I> },
}
