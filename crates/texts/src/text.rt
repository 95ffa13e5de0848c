// A text of at most N bytes, kept in place: how a value hands out its text without allocating.
ghost use Rattle.std.specs.Prelude.{◌≡◌, ◌≤◌, [], ◌∷◌, ◌++◌, length, take, decimal, ◌==◌};
ghost use Rattle.std.proofs.Common.{rules};
ghost use Rattle.std.specs.Cmp.{partial_order_from_own_ties};
ghost use Rattle.std.specs.Cmp.Rules.{comparing};
ghost use Rattle.std.specs.Cmp.Lexicographic.{slice_cmp, pointwise};
ghost use Rattle.std.specs.Ordering.{nat_cmp, as_partial_cmp};

use std::cmp::Ordering;
use std::marker::Model;

// A length beside the bytes, since a text is copied and nothing is allocated.
#[derive(Clone, Copy)]
pub struct Text<const N: usize> {
    bytes: [u8; N],
    len: usize,
}

// Room for the longest identifier (32 bytes) and the longest content (60 bytes).
pub type ShortText = Text<60>;

// Clauses see the bytes of the text, in order.
impl<const N: usize> Model for Text<N> {
    ghost use Rattle.std.specs.Prelude.{◌-◌, ◌++◌, ℕ, List, length, take, replicate};
    ghost use Rattle.texts.specs.Padding.{Padded, text_bytes, text_len};

    ghost Value = { List ℕ };

    ghost view = { λ t. take t.len t.bytes };

    ghost invariant = { λ t. Padded N t.bytes t.len };

    ghost inverse = { λ xs. record { bytes = xs ++ replicate (N - length xs) 0; len = length xs } };

    ghost inverse_ok = { λ t p i. record { bytes = text_bytes N t.bytes t.len p i; len = text_len N t.bytes t.len p i } };
}

impl<const N: usize> Text<N> {
    pub fn new() -> Text<N>
        ensures { result ≡ [] }
    {
        Text {
            bytes: [0; N],
            len: 0,
        }
    }

    // A copy of these bytes, as many as there is room for.
    pub fn from_slice(bytes: &[u8]) -> Text<N>
        ensures front { result ≡ take N bytes.now }
        ensures whole { length bytes.now ≤ N → result ≡ bytes.now }
    {
        let mut text = Text::new();
        text.append(bytes);
        text
    }

    // One byte more. A text that is full stays as it is.
    pub fn push(&mut self, byte: u8)
        ensures more { self.new ≡ take N (self.old ++ byte ∷ []) }
        ensures full { N ≤ length self.old → self.new ≡ self.old }
    {
        if self.len < N {
            self.bytes[self.len] = byte;
            self.len += 1;
        }
    }

    // These bytes behind the text, as many as there is room for.
    pub fn append(&mut self, bytes: &[u8])
        ensures more { self.new ≡ take N (self.old ++ bytes.now) }
        ensures full { N ≤ length self.old → self.new ≡ self.old }
    {
        if self.len == N {
            return;
        }
        for byte in bytes {
            self.push(*byte);
        }
    }

    // A number in decimal behind the text.
    pub fn append_number(&mut self, number: usize)
        ensures more { self.new ≡ take N (self.old ++ decimal number) }
        ensures full { N ≤ length self.old → self.new ≡ self.old }
    {
        if number < 10 {
            self.push(b'0' + number as u8);
            return;
        }
        self.append_number(number / 10);
        self.push(b'0' + (number % 10) as u8);
    }

    pub fn len(&self) -> usize
        ensures value { result ≡ length self.now }
        ensures within { result ≤ N }
    {
        self.as_slice().len()
    }

    pub fn as_slice(&self) -> &[u8]
        ensures bytes { result.now ≡ self.now }
        ensures within { length result.now ≤ N }
    {
        &self.bytes[..self.len]
    }
}

// The bytes behind the text are no part of it, so the texts are compared and not the fields.
impl<const N: usize> PartialEq for Text<N> {
    ghost eq = { pointwise ◌==◌ };

    ghost laws = { Prim.search (comparing, rules) };

    fn eq(&self, other: &Text<N>) -> bool {
        self.as_slice() == other.as_slice()
    }
}

impl<const N: usize> Eq for Text<N> {
    ghost laws = { Prim.search (comparing, rules) };
}

impl<const N: usize> PartialOrd for Text<N> {
    ghost partial_cmp = { as_partial_cmp (slice_cmp nat_cmp) };

    ghost laws = { partial_order_from_own_ties (Prim.search (comparing, rules)) (Prim.search (comparing, rules)) };

    fn partial_cmp(&self, other: &Text<N>) -> Option<Ordering> {
        Some(self.cmp(other))
    }
}

impl<const N: usize> Ord for Text<N> {
    ghost cmp = { slice_cmp nat_cmp };

    ghost total = { Prim.search (comparing, rules) };

    ghost matches_partial_cmp = { Prim.search (comparing, rules) };

    ghost matches_eq = { Prim.search (comparing, rules) };

    fn cmp(&self, other: &Text<N>) -> Ordering {
        self.as_slice().cmp(other.as_slice())
    }
}
