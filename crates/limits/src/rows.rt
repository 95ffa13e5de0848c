// Rows of the tables. What a row expects is written by hand from the rules, and never worked out.
use std::fmt;

// A text, a pair of numbers or a span of bytes, and whether it is lawful.
// Not a `Result`: `Ok` and `Err` in the tables would not say what a row expects.
#[derive(Clone, Copy)]
pub enum Row<T> {
    Lawful(T),
    Unlawful(T),
}

pub type TextRow<'t> = Row<&'t [u8]>;

// Two numbers, and whether a value is made of them.
pub type Pair = Row<(u32, u32)>;

impl<T: Copy> Row<T> {
    pub(crate) fn value(&self) -> T {
        match self {
            Row::Lawful(value) | Row::Unlawful(value) => *value,
        }
    }

    pub(crate) fn is_lawful(&self) -> bool {
        matches!(self, Row::Lawful(_))
    }

    // Another value, of which the same is expected.
    pub(crate) fn with<U>(&self, value: U) -> Row<U> {
        match self {
            Row::Lawful(_) => Row::Lawful(value),
            Row::Unlawful(_) => Row::Unlawful(value),
        }
    }
}

// A text between quotes, so that blanks at its ends are seen. A byte that cannot be printed stands as its number.
#[derive(Clone, Copy)]
pub struct Quoted<'t>(pub &'t [u8]);

impl fmt::Display for Quoted<'_> {
    fn fmt<W: fmt::Write>(&self, f: &mut fmt::Formatter<W>) -> fmt::Result {
        write!(f, "\"")?;
        for byte in self.0 {
            match byte {
                32..=126 => write!(f, "{}", char::from(*byte))?,
                _ => write!(f, "<{byte}>")?,
            }
        }
        write!(f, "\"")
    }
}
