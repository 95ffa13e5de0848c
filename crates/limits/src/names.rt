// Line names: an identifier, a colon, an index from 0 to 255.
use crate::order::compare_all;
use crate::report::Report;
use crate::rows::Row::{Lawful, Unlawful};
use crate::rows::TextRow;
use kinds::branch::BranchNumber;
use kinds::fingerprint::Fingerprint;
use kinds::identifier::Identifier;
use patch::names::LineName;
use std::io;
use texts::text::{ShortText, Text};

type ByBranch = LineName<BranchNumber>;

type ByFingerprint = LineName<Fingerprint>;

const BY_BRANCHES: [TextRow; 34] = [
    Lawful(b"3.7:0"),
    Lawful(b"3.7:9"),
    Lawful(b"3.7:10"),
    Lawful(b"3.7:255"),
    Lawful(b"1.1:0"),
    Lawful(b"999.65535:255"),
    Unlawful(b"3.7:256"),
    Unlawful(b"3.7:1000"),
    // These would be 0 in 8, in 32 and in 64 bits.
    Unlawful(b"3.7:512"),
    Unlawful(b"3.7:4294967296"),
    Unlawful(b"3.7:18446744073709551616"),
    Unlawful(b"3.7:00"),
    Unlawful(b"3.7:01"),
    Unlawful(b"3.7:"),
    Unlawful(b"3.7"),
    Unlawful(b":0"),
    Unlawful(b":"),
    Unlawful(b""),
    Unlawful(b"3.7:0:0"),
    Unlawful(b"3.7::0"),
    Unlawful(b"3.7:0:"),
    Unlawful(b"3.7:-1"),
    Unlawful(b"3.7:+1"),
    Unlawful(b"3.7: 0"),
    Unlawful(b"3.7 :0"),
    Unlawful(b" 3.7:0"),
    Unlawful(b"3.7:0 "),
    Unlawful(b"3.7:a"),
    Unlawful(b"3.7;0"),
    Unlawful(b"0.1:0"),
    Unlawful(b"1.0:0"),
    Unlawful(b"1000.1:0"),
    Unlawful(b"03.7:0"),
    Unlawful(b"00c0ffee00c0ffee00c0ffee00c0ffee:0"),
];

const BY_FINGERPRINTS: [TextRow; 13] = [
    Lawful(b"00c0ffee00c0ffee00c0ffee00c0ffee:0"),
    Lawful(b"00c0ffee00c0ffee00c0ffee00c0ffee:255"),
    Lawful(b"ffffffffffffffffffffffffffffffff:255"),
    Unlawful(b"00c0ffee00c0ffee00c0ffee00c0ffee:256"),
    Unlawful(b"00c0ffee00c0ffee00c0ffee00c0ffee:00"),
    Unlawful(b"00c0ffee00c0ffee00c0ffee00c0ffee:01"),
    Unlawful(b"00c0ffee00c0ffee00c0ffee00c0ffee:"),
    Unlawful(b"00c0ffee00c0ffee00c0ffee00c0ffee"),
    Unlawful(b"00c0ffee00c0ffee00c0ffee00c0ffee:0:0"),
    Unlawful(b"00c0ffee00c0ffee00c0ffee00c0ffe:0"),
    Unlawful(b"00c0ffee00c0ffee00c0ffee00c0ffee0:0"),
    Unlawful(b"00C0FFEE00c0ffee00c0ffee00c0ffee:0"),
    Unlawful(b"3.7:0"),
];

const ASCENDING_BY_BRANCHES: [&[u8]; 9] = [
    b"2.9:10",
    b"2.10:2",
    b"3.7:0",
    b"3.7:2",
    b"3.7:10",
    b"3.7:255",
    b"3.12:0",
    b"10.1:0",
    b"999.65535:255",
];

const ASCENDING_BY_FINGERPRINTS: [&[u8]; 5] = [
    b"00000000000000000000000000000000:255",
    b"00c0ffee00c0ffee00c0ffee00c0ffee:2",
    b"00c0ffee00c0ffee00c0ffee00c0ffee:10",
    b"a0000000000000000000000000000000:1",
    b"ffffffffffffffffffffffffffffffff:0",
];

// No function only tells whether a text is a name, so `read` is asked in its place.
fn is_name<I: Identifier>(text: &[u8]) -> bool {
    LineName::<I>::read(text).is_some()
}

// A name has at most 36 bytes, so all of it is copied.
fn write_name<I: Identifier>(name: &LineName<I>) -> ShortText {
    Text::from_slice(name.write().as_slice())
}

pub(crate) fn tables(report: &Report) -> io::Result<()> {
    report.title("Line names: branch numbers as identifiers")?;
    report.rows(
        &BY_BRANCHES,
        is_name::<BranchNumber>,
        ByBranch::read,
        write_name,
    )?;
    report.title("Line names: fingerprints as identifiers")?;
    report.rows(
        &BY_FINGERPRINTS,
        is_name::<Fingerprint>,
        ByFingerprint::read,
        write_name,
    )?;
    report.title("Line names: order by branch number and index")?;
    compare_all(
        report,
        &ASCENDING_BY_BRANCHES,
        ByBranch::read,
        ByBranch::compare,
    )?;
    report.title("Line names: order by fingerprint and index")?;
    compare_all(
        report,
        &ASCENDING_BY_FINGERPRINTS,
        ByFingerprint::read,
        ByFingerprint::compare,
    )
}
