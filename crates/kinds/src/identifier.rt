ghost use Rattle.std.specs.Prelude.{◌≡◌};
ghost use Rattle.std.specs.declared.cmp.Ordering.{Ordering as Ranking};
ghost use Rattle.graggle.specs.Texts.{Text};
ghost use Rattle.graggle.specs.Kinds.{Identifiers};

use crate::written::Written;

// A kind of identifier. Its texts have 1 to 32 bytes without line ends, colons and semicolons.
pub trait Identifier: Written + Ord {
    // The order of the lawful texts.
    ghost order: { Text → Text → Ranking };

    // Two laws, which each impl proves: the values stand as their texts do, and the lawful texts and their order make a kind of identifier.
    ghost ordered: { (x y : Self) → Self.cmp x y ≡ order (Self.text x) (Self.text y) };

    ghost kind: { Identifiers Self.lawful order Self.LONGEST };
}
