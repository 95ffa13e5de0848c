// Branch numbers: B from 1 to 999, a full stop, S from 1 to 65,535.
use crate::order::compare_all;
use crate::report::Report;
use crate::rows::Row::{Lawful, Unlawful};
use crate::rows::{Pair, TextRow};
use kinds::branch::BranchNumber;
use kinds::written::Written;
use std::io;

const RANGES: [TextRow; 16] = [
    Lawful(b"1.1"),
    Lawful(b"3.7"),
    Lawful(b"10.10"),
    Lawful(b"999.1"),
    Lawful(b"1.65535"),
    Lawful(b"999.65535"),
    Unlawful(b"0.1"),
    Unlawful(b"1.0"),
    Unlawful(b"0.0"),
    Unlawful(b"1000.1"),
    Unlawful(b"1.65536"),
    Unlawful(b"1.99999"),
    // One more than 2 to the 32nd, and one more than 2 to the 64th: each would be 1 if it wrapped.
    Unlawful(b"4294967297.1"),
    Unlawful(b"1.4294967297"),
    Unlawful(b"18446744073709551617.1"),
    Unlawful(b"1.18446744073709551617"),
];

const FORMS: [TextRow; 24] = [
    Unlawful(b"01.1"),
    Unlawful(b"1.01"),
    Unlawful(b"00.1"),
    Unlawful(b"1.00"),
    Unlawful(b""),
    Unlawful(b"1"),
    Unlawful(b"1."),
    Unlawful(b".1"),
    Unlawful(b"."),
    Unlawful(b"1..1"),
    Unlawful(b"1.1.1"),
    Unlawful(b"1.1."),
    Unlawful(b".1.1"),
    Unlawful(b" 1.1"),
    Unlawful(b"1.1 "),
    Unlawful(b"1. 1"),
    Unlawful(b"1 .1"),
    Unlawful(b"+1.1"),
    Unlawful(b"1.+1"),
    Unlawful(b"-1.1"),
    Unlawful(b"1,1"),
    Unlawful(b"1:1"),
    Unlawful(b"1.1\n"),
    Unlawful(b"1.1\0"),
];

// The bytes before 0 and after 9, and digits that are not ASCII: an Arabic one, and a wide one.
const DIGITS: [TextRow; 10] = [
    Unlawful(b"/.1"),
    Unlawful(b":.1"),
    Unlawful(b"1./"),
    Unlawful(b"1.:"),
    Unlawful(b"1/.1"),
    Unlawful(b"1.1:"),
    Unlawful(b"a.1"),
    Unlawful(b"1.0x1"),
    Unlawful(b"\xd9\xa1.1"),
    Unlawful(b"1.\xef\xbc\x91"),
];

const PAIRS: [Pair; 11] = [
    Lawful((1, 1)),
    Lawful((999, 1)),
    Lawful((1, 65_535)),
    Lawful((999, 65_535)),
    Unlawful((0, 0)),
    Unlawful((0, 1)),
    Unlawful((1, 0)),
    Unlawful((1_000, 65_535)),
    Unlawful((999, 65_536)),
    Unlawful((4_294_967_295, 1)),
    Unlawful((1, 4_294_967_295)),
];

const ASCENDING: [&[u8]; 9] = [
    b"1.1",
    b"1.2",
    b"1.10",
    b"1.65535",
    b"2.9",
    b"2.10",
    b"10.1",
    b"999.1",
    b"999.65535",
];

fn held(branch: u32, serial: u32) -> Option<(u32, u32)> {
    let number = BranchNumber::new(branch, serial)?;
    Some((number.branch(), number.serial()))
}

pub(crate) fn tables(report: &Report) -> io::Result<()> {
    report.title("Branch numbers: limits")?;
    report.kind::<BranchNumber>(&RANGES)?;
    report.longest::<BranchNumber>("BranchNumber::LONGEST", "BranchNumber::longest_text()", 9)?;
    report.title("Branch numbers: form")?;
    report.kind::<BranchNumber>(&FORMS)?;
    report.kind::<BranchNumber>(&DIGITS)?;
    report.title("Branch numbers: made of two numbers")?;
    report.pairs(&PAIRS, held)?;
    report.title("Branch numbers: order")?;
    compare_all(report, &ASCENDING, BranchNumber::read, BranchNumber::cmp)
}
