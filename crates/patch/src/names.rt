// A line's name: the identifier of the patch that it belongs to, a colon, and an index from 0 to 255.
ghost use Rattle.std.specs.Prelude.{◌≡◌, true, ◌↔◌, Some, Decides};
ghost use Rattle.std.specs.declared.cmp.Ordering.{Ordering as Ranking};
ghost use Rattle.graggle.specs.Names.{Name, WellNamed, name, name_order, name_text};
ghost use Rattle.graggle.specs.Kinds.{SameOrders};
ghost use Rattle.graggle.specs.Orders.{Total};
ghost use Rattle.graggle.specs.Texts.{Text as Bytes};
ghost use Rattle.patch.specs.Meant.{name_of, name_read};

use kinds::identifier::Identifier;
use std::cmp::Ordering;
use texts::numbers::read_number;
use texts::pieces::split_first;
use texts::text::Text;

const MOST_INDEX: u32 = 255;

// Room for the longest name: 32 bytes, a colon and three digits.
pub type NameText = Text<36>;

// Ordered by identifier, then by index.
#[derive(Clone, Copy, PartialEq, Eq, PartialOrd, Ord, Default)]
pub struct LineName<I> {
    pub patch: I,
    pub index: u8,
}

impl<I: Identifier> LineName<I> {
    // The name that a text writes; nothing for any other text.
    pub fn read(text: &[u8]) -> Option<LineName<I>>
        ensures reads { name_read I.text result ≡ name I.lawful text.now }
        ensures means { (n : Name) → (name_read I.text result ≡ Some n) ↔ ((text.now ≡ name_text n) × WellNamed I.lawful n) }
    {
        let (patch, index) = split_first(text, b':')?;
        let patch = I::read(patch)?;
        let index = read_number(index, MOST_INDEX)?;
        Some(LineName {
            patch,
            index: index as u8,
        })
    }

    pub fn write(&self) -> NameText
        ensures { result ≡ name_text (name_of I.text self.now) }
    {
        let mut text = Text::from_slice(self.patch.write().as_slice());
        text.push(b':');
        text.append_number(self.index as usize);
        text
    }

    // The order of names, told in texts: the contract is what holds it to the rules.
    pub fn compare(&self, other: &LineName<I>) -> Ordering
        ensures order { result ≡ name_order I.order (name_of I.text self.now) (name_of I.text other.now) }
        ensures alike { (same : Bytes → Bytes → Ranking) → SameOrders I.lawful I.order same → result ≡ name_order same (name_of I.text self.now) (name_of I.text other.now) }
        ensures total { Total (λ (n : Name). I.lawful n.patch ≡ true) (name_order I.order) }
    {
        self.cmp(other)
    }

    // Whether the names are equal, told in texts.
    pub fn is(&self, other: &LineName<I>) -> bool
        ensures { Decides result (name_of I.text self.now ≡ name_of I.text other.now) }
    {
        self == other
    }

    pub fn belongs_to(&self, patch: &I) -> bool
        ensures { Decides result ((name_of I.text self.now).patch ≡ I.text patch.now) }
    {
        self.patch == *patch
    }
}
