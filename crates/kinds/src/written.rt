ghost use Rattle.std.specs.Prelude.{◌≡◌, ℕ, Bool, true, false, Decides, MatchOption};
ghost use Rattle.graggle.specs.Texts.{Text};

use texts::text::ShortText;

// A kind of value that is written as a text, as every kind of identifier and of content is. A value means its text.
pub trait Written: Copy {
    // The length of the longest lawful text.
    const LONGEST: usize;

    ghost LONGEST: { ℕ };

    // What a kind means: its lawful texts, as a test and in the words of the kind, and the text of each value.
    ghost lawful: { Text → Bool };

    ghost IsLawful: { Text → Type 0 };

    ghost text: { Self → Text };

    fn longest_text() -> usize
        ensures { result ≡ LONGEST }
    {
        Self::LONGEST
    }

    // The value of a lawful text; nothing for any other text.
    fn read(bytes: &[u8]) -> Option<Self>
        ensures { MatchOption result (lawful bytes.now ≡ false) (λ x. text x ≡ bytes.now) };

    // The text that `read` takes for this value.
    fn write(&self) -> ShortText
        ensures { result ≡ text self.now };

    fn is_lawful(bytes: &[u8]) -> bool
        ensures { Decides result (IsLawful bytes.now) }
    {
        Self::read(bytes).is_some()
    }

    // Two laws, which each impl proves: the test tells the lawful texts, and every value's text is lawful.
    ghost told: { (t : Text) → Decides (lawful t) (IsLawful t) };

    ghost own: { (x : Self) → lawful (text x) ≡ true };
}
