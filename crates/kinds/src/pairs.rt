// Texts of two numbers with a mark between them: how branch numbers and stock rows are written.
ghost use Rattle.std.specs.Prelude.{◌≡◌, ◌^◌, ◌<◌, false, MatchOption};
ghost use Rattle.std.specs.Int.{IsInRange};
ghost use Rattle.kinds.specs.Pairs.{pair_text};

use texts::numbers::read_number_from;
use texts::pieces::split_first;
use texts::text::{ShortText, Text};

// The mark, the first number from `low` to `high`, and the second from `least` to `most`.
#[derive(Clone, Copy)]
pub(crate) struct PairForm {
    pub mark: u8,
    pub low: u32,
    pub high: u32,
    pub least: u32,
    pub most: u32,
    ghost no_digit: { IsInRange 48 57 mark → ⊥ },
    ghost high_fits: { high < 2 ^ 64 },
    ghost most_fits: { most < 2 ^ 64 },
}

impl PairForm {
    ghost use Rattle.kinds.specs.Pairing.{lawful, Range};

    // The two numbers of a lawful text; nothing for any other text.
    pub(crate) fn read(&self, text: &[u8]) -> Option<(u32, u32)>
        ensures { MatchOption result (lawful self.now text.now ≡ false) (λ p. Range self.now p.0 p.1 × (pair_text self.now.mark p.0 p.1 ≡ text.now)) }
    {
        let (first, second) = split_first(text, self.mark)?;
        let first = read_number_from(first, self.low, self.high)?;
        let second = read_number_from(second, self.least, self.most)?;
        Some((first, second))
    }

    // The text of two numbers.
    pub(crate) fn write(&self, first: u32, second: u32) -> ShortText
        ensures { result ≡ pair_text self.now.mark first second }
    {
        let mut text = Text::new();
        text.append_number(first as usize);
        text.push(self.mark);
        text.append_number(second as usize);
        text
    }
}
