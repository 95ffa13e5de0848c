// What the memory handed to page holds afterwards.
use crate::show::Report;
use flat::flat_store::FlatStore;
use kinds::branch::BranchNumber;
use lending::memory::LoanLine;
use std::io;
use store::store::Store;
use volume::volume::Volume;

const PAGE: &[u8] = b"block;kind;knot;line;text\n1;plain;1;1.1:0;Two weeks a loan\n";

// Asks for the page in so much of 64 bytes, each of which holds 255, and tells what they hold then.
fn ask<S: Store<Id = BranchNumber>>(
    report: &Report,
    volume: &Volume<S>,
    len: usize,
) -> io::Result<()> {
    let mut memory = [255; 64];
    let end = len.min(memory.len());
    let answer = volume.page(&mut memory[..end]);
    println!(report.rt; "  {end} bytes of memory")?;
    match answer {
        Ok(page) => {
            println!(report.rt; "    granted, length {page}")?;
            report.fact("  the front is the page", memory.starts_with(PAGE))?;
            report.fact(
                "  the 5 bytes after it keep their values",
                memory.ends_with(&[255; 5]),
            )
        }
        Err(refusal) => {
            report.refusal("  page", &refusal)?;
            report.fact("  all bytes keep their values", memory == [255; 64])
        }
    }
}

pub(crate) fn page_memory(report: &Report) -> io::Result<()> {
    report.title("A page of 59 bytes in memory that holds the byte 255")?;
    let mut lines = [LoanLine::default(); 1];
    let mut volume = Volume::new(FlatStore::new(&mut lines, &mut [], &mut []));
    let taken = volume.apply(b"1.1", b"act;line;to;text\na;1.1:0;;Two weeks a loan\n");
    report.answer("one line", &taken)?;
    for len in [0, 58, 59, 64] {
        ask(report, &volume, len)?;
    }
    Ok(())
}
