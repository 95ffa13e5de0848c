ghost use Rattle.graggle.specs.Kinds.{Contents};

use crate::written::Written;

// A kind of content of a line. Its texts have 0 to 60 bytes without line ends and semicolons.
pub trait Content: Written {
    // A law, which each impl proves: the lawful texts make a kind of content.
    ghost kind: { Contents Self.lawful Self.LONGEST };
}
