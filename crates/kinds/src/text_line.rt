// Text lines: contents of printable bytes.
ghost use Rattle.std.specs.Prelude.{◌≡◌, true, []};
ghost use Rattle.kinds.specs.TextLines.{lawful_line, printable};

use crate::content::Content;
use crate::written::Written;
use texts::text::{ShortText, Text};

// A line of text: at most 60 printable ASCII bytes, none of them a semicolon.
#[derive(Clone, Copy, PartialEq, Eq)]
pub struct TextLine {
    text: ShortText,
    ghost lawful: { lawful_line text ≡ true },
}

impl TextLine {
    pub fn empty() -> TextLine
        ensures { result.text ≡ [] }
    {
        TextLine { text: Text::new() }
    }
}

impl Default for TextLine {
    ghost is_default = { λ x. x.text ≡ [] };

    fn default() -> TextLine {
        TextLine::empty()
    }
}

fn is_printable(byte: u8) -> bool
    ensures { result ≡ printable byte }
{
    matches!(byte, b' '..=b'~') && byte != b';'
}

impl Written for TextLine {
    ghost use Rattle.kinds.specs.LineLaws.{line_decides};
    ghost use Rattle.kinds.specs.TextLines.{IsTextLine, lawful_line};

    const LONGEST: usize = 60;

    ghost LONGEST = { 60 };

    ghost lawful = { lawful_line };

    ghost IsLawful = { IsTextLine };

    ghost text = { λ x. x.text };

    ghost told = { line_decides };

    ghost own = { λ x. x.«lawful» };

    // Goes over the bytes one by one, as the house rules put it: every byte lies from 32 to 126, and none is 59.
    fn read(bytes: &[u8]) -> Option<TextLine> {
        if Self::LONGEST < bytes.len() {
            return None;
        }
        for byte in bytes {
            if !is_printable(*byte) {
                return None;
            }
        }
        Some(TextLine {
            text: Text::from_slice(bytes),
        })
    }

    fn write(&self) -> ShortText {
        self.text
    }
}

impl Content for TextLine {
    ghost use Rattle.kinds.specs.LineLaws.{lines_kind};

    ghost kind = { lines_kind };
}
