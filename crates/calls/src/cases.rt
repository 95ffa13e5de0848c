// A list of calls to one volume.
use crate::show::Report;
use kinds::branch::BranchNumber;
use page::page::LONGEST_PAGE;
use std::io;
use store::store::Store;
use volume::volume::Volume;

#[derive(Clone, Copy)]
pub enum Call {
    Apply(&'static [u8], &'static [u8]),
    Unapply(&'static [u8]),
}

// The memory that the page is written to, filled with zeros before.
fn page_of<S: Store>(volume: &Volume<S>) -> [u8; LONGEST_PAGE] {
    let mut memory = [0; LONGEST_PAGE];
    let _ = volume.page(&mut memory);
    memory
}

// Makes the calls one by one. After a refusal the page has to be as before.
pub(crate) fn run<S: Store<Id = BranchNumber>>(
    report: &Report,
    volume: &mut Volume<S>,
    cases: &[(&str, Call)],
) -> io::Result<()> {
    for (what, call) in cases {
        let before = page_of(volume);
        let answer = match call {
            Call::Apply(id, text) => volume.apply(id, text),
            Call::Unapply(id) => volume.unapply(id),
        };
        report.answer(what, &answer)?;
        if answer.is_err() && before != page_of(volume) {
            report.fact("nothing changed", false)?;
        }
    }
    Ok(())
}
