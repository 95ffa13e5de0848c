// Why a call was refused.
ghost use Rattle.std.specs.Prelude.{◌≡◌, Some};
ghost use Rattle.patch.specs.declared.refusals.Cause.TheVariants.{Nothing};
ghost use Rattle.patch.specs.Refusals.{layer_name, number_of};

use crate::names::LineName;
use std::fmt;

// The fifteen reasons, in the order of their numbers.
#[derive(Clone, Copy, PartialEq, Eq, Debug)]
pub enum Reason {
    UnlawfulIdentifier = 1,
    BadHeading = 2,
    BadValueLine = 3,
    UnlawfulContent = 4,
    BadCount = 5,
    AlreadyStands = 6,
    ForbiddenName = 7,
    RepeatedEntry = 8,
    UnknownPatch = 9,
    UnknownLine = 10,
    NoRoom = 11,
    DoesNotStand = 12,
    IsNamed = 13,
    ShortMemory = 14,
    BadScript = 15,
}

impl Reason {
    pub fn number(&self) -> usize
        ensures { result ≡ number_of self.now }
    {
        *self as usize
    }
}

// What a refusal points at. The house rules name these three, so `Nothing` is one of them, and no cause is an `Option`.
#[derive(Clone, Copy)]
pub enum Cause<I> {
    Nothing,
    Patch(I),
    Line(LineName<I>),
}

// Which part of the program refused.
#[derive(Clone, Copy, PartialEq, Eq, Debug)]
pub enum Layer {
    Reader,
    Volume,
    Store,
    Page,
    Tool,
}

impl fmt::Display for Layer {
    ghost output = { λ l. Some (layer_name l) };

    fn fmt<W: fmt::Write>(&self, f: &mut fmt::Formatter<W>) -> fmt::Result {
        f.write_str(match self {
            Layer::Reader => "reader",
            Layer::Volume => "volume",
            Layer::Store => "store",
            Layer::Page => "page",
            Layer::Tool => "tool",
        })
    }
}

// The house rules make a refusal a plain record of these four. So which refusals a call gives is told by its contract, and not by
// this type.
#[derive(Clone, Copy)]
pub struct Refusal<I> {
    pub reason: Reason,
    // A line of a text, a list of the store, or the length that was needed; 0 for none. A number, as the house rules print it.
    pub place: usize,
    pub cause: Cause<I>,
    pub layer: Layer,
}

impl<I> Refusal<I> {
    // A refusal that points at nothing.
    pub fn plain(reason: Reason, place: usize, layer: Layer) -> Refusal<I>
        ensures { result ≡ record { reason = reason; place = place; cause = Nothing; layer = layer } }
    {
        Refusal {
            reason,
            place,
            cause: Cause::Nothing,
            layer,
        }
    }
}
