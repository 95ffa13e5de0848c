// Pages as they are printed, counted and laid side by side.
use crate::words::as_text;
use page::sheet::Sheet;
use std::io;
use texts::pieces::piece;

// How many lines of the page stand in a fork. The kind of a block is the second piece of a line.
fn forked(sheet: &Sheet) -> usize {
    as_text(sheet.as_slice())
        .lines()
        .filter(|line| piece(line.as_bytes(), b';', 1) == b"fork".as_slice())
        .count()
}

// The lines of the page, and whether there is a fork.
pub(crate) fn print_page(rt: &HostRuntime, sheet: &Sheet) -> io::Result<()> {
    print_lines(rt, sheet.as_slice())?;
    match forked(sheet) {
        0 => println!(rt; "The page has no fork."),
        count => println!(rt;
            "The page has a fork: {count} lines that nobody has put in one order."
        ),
    }
}

// The lines of a text, indented.
fn print_lines(rt: &HostRuntime, text: &[u8]) -> io::Result<()> {
    for line in as_text(text).lines() {
        println!(rt; "    {line}")?;
    }
    Ok(())
}

// Says whether two pages are the same, byte for byte.
pub(crate) fn print_comparison(
    rt: &HostRuntime,
    which: &str,
    one: &Sheet,
    other: &Sheet,
) -> io::Result<()> {
    let verdict = if one == other {
        "the same, byte for byte"
    } else {
        "not the same"
    };
    println!(rt; "{which}: {verdict}.")
}
