// Fingerprints: 32 hexadecimal digits, `0` to `9` and `a` to `f`.
use crate::order::compare_all;
use crate::report::Report;
use crate::rows::Row::{Lawful, Unlawful};
use crate::rows::TextRow;
use kinds::fingerprint::Fingerprint;
use kinds::written::Written;
use std::io;

const LENGTHS: [TextRow; 10] = [
    Lawful(b"00000000000000000000000000000000"),
    Lawful(b"ffffffffffffffffffffffffffffffff"),
    Lawful(b"0123456789abcdef0123456789abcdef"),
    Lawful(b"00c0ffee00c0ffee00c0ffee00c0ffee"),
    Unlawful(b""),
    Unlawful(b"0"),
    Unlawful(b"0000000000000000000000000000000"),
    Unlawful(b"000000000000000000000000000000000"),
    Unlawful(b"fffffffffffffffffffffffffffffff"),
    Unlawful(b"fffffffffffffffffffffffffffffffff"),
];

// The bytes before and after the digits and the letters, each at the first, a middle and the last place.
const EDGES: [TextRow; 24] = [
    Unlawful(b"/123456789abcdef0123456789abcdef"),
    Unlawful(b"0123456789abcdef/123456789abcdef"),
    Unlawful(b"0123456789abcdef0123456789abcde/"),
    Unlawful(b":123456789abcdef0123456789abcdef"),
    Unlawful(b"0123456789abcdef:123456789abcdef"),
    Unlawful(b"0123456789abcdef0123456789abcde:"),
    Unlawful(b"`123456789abcdef0123456789abcdef"),
    Unlawful(b"0123456789abcdef`123456789abcdef"),
    Unlawful(b"0123456789abcdef0123456789abcde`"),
    Unlawful(b"g123456789abcdef0123456789abcdef"),
    Unlawful(b"0123456789abcdefg123456789abcdef"),
    Unlawful(b"0123456789abcdef0123456789abcdeg"),
    Lawful(b"0123456789abcdef0123456789abcde0"),
    Lawful(b"9123456789abcdef9123456789abcde9"),
    Lawful(b"a123456789abcdefa123456789abcdea"),
    Lawful(b"f123456789abcdeff123456789abcdef"),
    Unlawful(b"00C0FFEE00C0FFEE00C0FFEE00C0FFEE"),
    Unlawful(b"A0c0ffee00c0ffee00c0ffee00c0ffee"),
    Unlawful(b"00c0ffee00c0ffeeF0c0ffee00c0ffee"),
    Unlawful(b"00c0ffee00c0ffee00c0ffee00c0ffeE"),
    Unlawful(b" 0c0ffee00c0ffee00c0ffee00c0ffee"),
    Unlawful(b"00c0ffee00c0ffee00c0ffee00c0ffe\n"),
    Unlawful(b"00c0ffee00c0ffee\x0000c0ffee00c0ffe"),
    Unlawful(b"00c0ffee00c0ffee00c0ffee00c0ff\xd9\xa1"),
];

const ASCENDING: [&[u8]; 8] = [
    b"00000000000000000000000000000000",
    b"00000000000000000000000000000001",
    b"0000000000000000000000000000000a",
    b"00000000000000010000000000000000",
    b"0fffffffffffffffffffffffffffffff",
    b"90000000000000000000000000000000",
    b"a0000000000000000000000000000000",
    b"ffffffffffffffffffffffffffffffff",
];

pub(crate) fn tables(report: &Report) -> io::Result<()> {
    report.title("Fingerprints: lengths")?;
    report.kind::<Fingerprint>(&LENGTHS)?;
    report.longest::<Fingerprint>("Fingerprint::LONGEST", "Fingerprint::longest_text()", 32)?;
    report.title("Fingerprints: digits")?;
    report.kind::<Fingerprint>(&EDGES)?;
    report.title("Fingerprints: order")?;
    compare_all(report, &ASCENDING, Fingerprint::read, Fingerprint::cmp)
}
