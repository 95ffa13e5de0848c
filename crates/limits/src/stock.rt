// Stock rows: an item from 1 to 999,999, a comma, 0 to 999 copies.
use crate::report::Report;
use crate::rows::Row::{Lawful, Unlawful};
use crate::rows::{Pair, TextRow};
use kinds::stock_row::StockRow;
use kinds::written::Written;
use std::io;

const RANGES: [TextRow; 16] = [
    Lawful(b"1,0"),
    Lawful(b"1,1"),
    Lawful(b"1,999"),
    Lawful(b"70412,3"),
    Lawful(b"999999,0"),
    Lawful(b"999999,999"),
    Unlawful(b"0,0"),
    Unlawful(b"0,3"),
    Unlawful(b"1000000,1"),
    Unlawful(b"1,1000"),
    Unlawful(b"70412,1000"),
    // One more than 2 to the 32nd, and one more than 2 to the 64th: each would be 1 if it wrapped.
    Unlawful(b"4294967297,1"),
    Unlawful(b"1,4294967297"),
    Unlawful(b"18446744073709551617,1"),
    Unlawful(b"1,18446744073709551617"),
    Unlawful(b"9999999,9999"),
];

const FORMS: [TextRow; 24] = [
    Unlawful(b"01,1"),
    Unlawful(b"070412,3"),
    Unlawful(b"1,00"),
    Unlawful(b"1,01"),
    Unlawful(b""),
    Unlawful(b"1"),
    Unlawful(b"70412"),
    Unlawful(b"1,"),
    Unlawful(b",1"),
    Unlawful(b","),
    Unlawful(b"1,,1"),
    Unlawful(b"1,1,1"),
    Unlawful(b"999,999,1"),
    Unlawful(b"1.1"),
    Unlawful(b"1;1"),
    Unlawful(b" 1,1"),
    Unlawful(b"1,1 "),
    Unlawful(b"1, 1"),
    Unlawful(b"1 ,1"),
    Unlawful(b"+1,1"),
    Unlawful(b"1,-1"),
    Unlawful(b"/,1"),
    Unlawful(b"1,:"),
    Unlawful(b"1,\xd9\xa1"),
];

const PAIRS: [Pair; 10] = [
    Lawful((1, 0)),
    Lawful((1, 999)),
    Lawful((999_999, 0)),
    Lawful((999_999, 999)),
    Unlawful((0, 0)),
    Unlawful((0, 999)),
    Unlawful((1_000_000, 0)),
    Unlawful((1, 1_000)),
    Unlawful((4_294_967_295, 0)),
    Unlawful((1, 4_294_967_295)),
];

fn held(item: u32, copies: u32) -> Option<(u32, u32)> {
    let row = StockRow::new(item, copies)?;
    Some((row.item(), row.copies()))
}

pub(crate) fn tables(report: &Report) -> io::Result<()> {
    report.title("Stock rows: limits")?;
    report.kind::<StockRow>(&RANGES)?;
    report.longest::<StockRow>("StockRow::LONGEST", "StockRow::longest_text()", 10)?;
    report.title("Stock rows: form")?;
    report.kind::<StockRow>(&FORMS)?;
    report.title("Stock rows: made of two numbers")?;
    report.pairs(&PAIRS, held)
}
