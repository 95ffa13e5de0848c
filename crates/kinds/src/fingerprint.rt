// Fingerprints: identifiers of 32 hexadecimal digits, ordered as text.
ghost use Rattle.std.specs.Prelude.{◌≡◌, true};
ghost use Rattle.std.specs.List.{list_all};
ghost use Rattle.kinds.specs.Fingerprints.{hexadecimal, lawful_fingerprint};

use crate::identifier::Identifier;
use crate::written::Written;
use texts::text::{ShortText, Text};

// A patch's fingerprint: `0` to `9` and `a` to `f`.
#[derive(Clone, Copy, PartialEq, Eq, PartialOrd, Ord)]
pub struct Fingerprint {
    digits: Text<32>,
    ghost lawful: { lawful_fingerprint digits ≡ true },
}

fn is_hexadecimal(byte: u8) -> bool
    ensures { result ≡ hexadecimal byte }
{
    matches!(byte, b'0'..=b'9' | b'a'..=b'f')
}

fn all_hexadecimal(bytes: &[u8]) -> bool
    ensures { result ≡ list_all hexadecimal bytes.now }
{
    bytes.iter().all(|byte| is_hexadecimal(*byte))
}

impl Written for Fingerprint {
    ghost use Rattle.kinds.specs.Fingerprints.{IsFingerprint, lawful_fingerprint};
    ghost use Rattle.kinds.specs.PrintLaws.{fingerprint_decides};

    const LONGEST: usize = 32;

    ghost LONGEST = { 32 };

    ghost lawful = { lawful_fingerprint };

    ghost IsLawful = { IsFingerprint };

    ghost text = { λ x. x.digits };

    ghost told = { fingerprint_decides };

    ghost own = { λ x. x.«lawful» };

    fn read(bytes: &[u8]) -> Option<Fingerprint> {
        if bytes.len() != Self::LONGEST {
            return None;
        }
        if !all_hexadecimal(bytes) {
            return None;
        }
        Some(Fingerprint {
            digits: Text::from_slice(bytes),
        })
    }

    fn write(&self) -> ShortText {
        Text::from_slice(self.digits.as_slice())
    }
}

impl Identifier for Fingerprint {
    ghost use Rattle.std.specs.Prelude.{refl};
    ghost use Rattle.graggle.specs.Orders.{by_bytes};
    ghost use Rattle.kinds.specs.PrintLaws.{fingerprints_kind};

    ghost order = { by_bytes };

    ghost ordered = { λ x y. refl };

    ghost kind = { fingerprints_kind };
}
