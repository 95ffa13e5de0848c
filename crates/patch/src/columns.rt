// The order of the columns, from line 1 of a patch text.
ghost use Rattle.std.specs.Prelude.{◌≡◌, true, false, length, MatchOption};
ghost use Rattle.graggle.specs.Texts.{split, has, place};
ghost use Rattle.graggle.specs.Reading.{heads_fit, found};
ghost use Rattle.patch.specs.Meant.{places_of};

use texts::pieces::{marks, piece};

// At which place of a value line each value stands.
#[derive(Clone, Copy)]
pub struct Columns {
    pub act: usize,
    pub line: usize,
    pub to: usize,
    pub text: usize,
}

// Which piece of the heading is this name.
fn place_of(heading: &[u8], name: &[u8]) -> Option<usize>
    ensures { MatchOption result (has name.now (split 59 heading.now) ≡ false) (λ i. (has name.now (split 59 heading.now) ≡ true) × (i ≡ place name.now (split 59 heading.now))) }
{
    heading
        .split(|byte| *byte == b';')
        .position(|piece| piece == name)
}

impl Columns {
    // The four names, each once, in any order. Four pieces among which each name is found hold no name twice.
    pub(crate) fn read(heading: &[u8]) -> Option<Columns>
        ensures { MatchOption result (heads_fit (split 59 heading.now) ≡ false) (λ c. (heads_fit (split 59 heading.now) ≡ true) × (places_of c ≡ found (split 59 heading.now))) }
    {
        if marks(heading, b';') != 3 {
            return None;
        }
        Some(Columns {
            act: place_of(heading, b"act")?,
            line: place_of(heading, b"line")?,
            to: place_of(heading, b"to")?,
            text: place_of(heading, b"text")?,
        })
    }
}
