// Refusals in plain words.
use kinds::branch::BranchNumber;
use kinds::written::Written;
use patch::refusals::{Cause, Reason, Refusal};
use std::fmt;

// Bytes as text. Names and pages are always text.
pub(crate) fn as_text(bytes: &[u8]) -> &str {
    std::str::from_utf8(bytes).unwrap_or("(unreadable)")
}

// What a refusal points at.
#[derive(Clone, Copy)]
struct Named(Cause<BranchNumber>);

impl fmt::Display for Named {
    fn fmt<W: fmt::Write>(&self, f: &mut fmt::Formatter<W>) -> fmt::Result {
        match self.0 {
            Cause::Nothing => write!(f, "nothing"),
            Cause::Patch(patch) => write!(f, "patch {}", as_text(patch.write().as_slice())),
            Cause::Line(name) => write!(f, "line {}", as_text(name.write().as_slice())),
        }
    }
}

// Where a refusal was met: its number, and the place where it has one.
#[derive(Clone, Copy)]
struct Met<'r>(&'r Refusal<BranchNumber>);

// What the place of a refusal counts.
fn place_word(reason: Reason) -> &'static str {
    match reason {
        Reason::NoRoom => "list",
        Reason::ShortMemory => "length",
        _ => "line",
    }
}

impl fmt::Display for Met<'_> {
    fn fmt<W: fmt::Write>(&self, f: &mut fmt::Formatter<W>) -> fmt::Result {
        let number = self.0.reason.number();
        let place = self.0.place;
        if place == 0 {
            return write!(f, "{number}");
        }
        write!(f, "{number}, {} {place}", place_word(self.0.reason))
    }
}

// The refusal as a person would tell it.
#[derive(Clone, Copy)]
pub struct Told<'r>(pub &'r Refusal<BranchNumber>);

impl fmt::Display for Told<'_> {
    fn fmt<W: fmt::Write>(&self, f: &mut fmt::Formatter<W>) -> fmt::Result {
        let met = Met(self.0);
        let named = Named(self.0.cause);
        write!(f, "refused ({met}): ")?;
        match self.0.reason {
            Reason::UnlawfulIdentifier => write!(f, "its number is not written like 12.1"),
            Reason::BadHeading => write!(f, "the text does not begin with act, line, to and text"),
            Reason::BadValueLine => write!(f, "the line is not written as an entry is"),
            Reason::UnlawfulContent => write!(
                f,
                "the words are too long, or hold a forbidden sign"
            ),
            Reason::BadCount => write!(f, "it has no entry, or more than 128"),
            Reason::AlreadyStands => write!(f, "{named} has been taken here already"),
            Reason::ForbiddenName => write!(f, "it may not do this with {named}"),
            Reason::RepeatedEntry => write!(f, "it says the same of {named} twice"),
            Reason::UnknownPatch => write!(f, "it names {named}, which has not arrived here"),
            Reason::UnknownLine => write!(f, "it names {named}, which nobody has added"),
            Reason::NoRoom => write!(f, "there is no room for so much more"),
            Reason::DoesNotStand => write!(f, "{named} has not been taken here"),
            Reason::IsNamed => write!(f, "{named} still names a line of it"),
            Reason::ShortMemory => write!(f, "the page does not fit"),
            Reason::BadScript => write!(f, "this is no command"),
        }
    }
}
