// Text lines: 0 to 60 bytes from 32 to 126, none of them 59.
use crate::report::{Report, word_of};
use crate::rows::Row::{Lawful, Unlawful};
use crate::rows::{Row, TextRow};
use kinds::text_line::TextLine;
use kinds::written::Written;
use std::io;

const LENGTHS: [TextRow; 10] = [
    Lawful(b""),
    Lawful(b"x"),
    Lawful(b" "),
    Lawful(b"Two weeks a loan"),
    Lawful(b"Fines: none"),
    Lawful(b" a,b "),
    Lawful(b"12345678901234567890123456789012345678901234567890123456789"),
    Lawful(b"123456789012345678901234567890123456789012345678901234567890"),
    Unlawful(b"1234567890123456789012345678901234567890123456789012345678901"),
    Unlawful(b"                                                             "),
];

// An unlawful byte at the first, a middle and the last place.
const PLACES: [TextRow; 16] = [
    Unlawful(b";Two weeks"),
    Unlawful(b"Two;weeks"),
    Unlawful(b"Two weeks;"),
    Unlawful(b"\x1fTwo weeks"),
    Unlawful(b"Two\x1fweeks"),
    Unlawful(b"Two weeks\x1f"),
    Unlawful(b"\x7fTwo weeks"),
    Unlawful(b"Two\x7fweeks"),
    Unlawful(b"Two weeks\x7f"),
    Unlawful(b"\0Two weeks"),
    Unlawful(b"Two\tweeks"),
    Unlawful(b"Two weeks\n"),
    Unlawful(b"Two weeks\r"),
    Unlawful(b"\x80Two weeks"),
    Unlawful(b"Two w\xc3\xa9eks"),
    Unlawful(b"12345678901234567890123456789012345678901234567890123456789;"),
];

// Texts of one byte, from the first byte to the last.
const SPANS: [Row<(u8, u8)>; 5] = [
    Unlawful((0, 31)),
    Lawful((32, 58)),
    Unlawful((59, 59)),
    Lawful((60, 126)),
    Unlawful((127, 255)),
];

// Each byte of the span, as a text of its own.
fn try_span(report: &Report, span: &Row<(u8, u8)>) -> io::Result<()> {
    let word = word_of(span.is_lawful());
    let (first, last) = span.value();
    println!(report.rt; "  {word:<8}  bytes {first:>3} to {last:>3}")?;
    for byte in first..=last {
        let text: &[u8] = &[byte];
        let written = TextLine::read(text).map(|line| line.write());
        let written = written.as_ref().map(|written| written.as_slice());
        report.hold(&span.with(text), TextLine::is_lawful(text), written)?;
    }
    Ok(())
}

fn try_spans(report: &Report) -> io::Result<()> {
    for span in &SPANS {
        try_span(report, span)?;
    }
    Ok(())
}

fn lawful_bytes() -> usize {
    (0..=255)
        .filter(|byte| TextLine::is_lawful(&[*byte]))
        .count()
}

pub(crate) fn tables(report: &Report) -> io::Result<()> {
    report.title("Text lines: lengths")?;
    report.kind::<TextLine>(&LENGTHS)?;
    report.longest::<TextLine>("TextLine::LONGEST", "TextLine::longest_text()", 60)?;
    report.title("Text lines: places of an unlawful byte")?;
    report.kind::<TextLine>(&PLACES)?;
    report.title("Text lines: each byte alone")?;
    try_spans(report)?;
    report.count("bytes that are lawful alone", lawful_bytes(), 94)
}
