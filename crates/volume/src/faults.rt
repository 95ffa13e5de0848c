// The refusals of a volume.
ghost use Rattle.std.specs.Prelude.{◌≡◌};
ghost use Rattle.patch.specs.declared.refusals.Layer.TheVariants.{Volume};
ghost use Rattle.patch.specs.Refusals.{Tabled, ValueLine, apply_gives};

use patch::names::LineName;
use patch::refusals::{Cause, Layer, Reason, Refusal};

pub(crate) fn refusal<I>(reason: Reason, place: usize, cause: Cause<I>) -> Refusal<I>
    ensures { result ≡ record { reason = reason; place = place; cause = cause; layer = Volume } }
{
    Refusal {
        reason,
        place,
        cause,
        layer: Layer::Volume,
    }
}

// What is wrong with one entry of a patch.
#[derive(Clone, Copy)]
pub(crate) enum EntryFault<I> {
    ForbiddenName(LineName<I>),
    RepeatedEntry(LineName<I>),
    UnknownPatch(I),
    UnknownLine(LineName<I>),
}

impl<I> EntryFault<I> {
    // The refusal of the entry in this line of the text.
    pub(crate) fn at(self, line: usize) -> Refusal<I>
        requires { ValueLine line }
        ensures { Tabled apply_gives result }
    {
        let (reason, cause) = match self {
            EntryFault::ForbiddenName(name) => (Reason::ForbiddenName, Cause::Line(name)),
            EntryFault::RepeatedEntry(name) => (Reason::RepeatedEntry, Cause::Line(name)),
            EntryFault::UnknownPatch(patch) => (Reason::UnknownPatch, Cause::Patch(patch)),
            EntryFault::UnknownLine(name) => (Reason::UnknownLine, Cause::Line(name)),
        };
        refusal(reason, line, cause)
    }
}
