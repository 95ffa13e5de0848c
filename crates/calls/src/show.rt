// One line of the report for each call.
use kinds::branch::BranchNumber;
use kinds::written::Written;
use patch::refusals::{Cause, Refusal};
use std::{fmt, io, str};

pub type Answer = Result<(), Refusal<BranchNumber>>;

#[derive(Clone, Copy)]
pub struct Report<'r> {
    pub rt: &'r HostRuntime,
}

// A text of the library. All that the report shows is ASCII.
#[derive(Clone, Copy)]
struct Shown<'t>(&'t [u8]);

impl fmt::Display for Shown<'_> {
    fn fmt<W: fmt::Write>(&self, f: &mut fmt::Formatter<W>) -> fmt::Result {
        f.write_str(str::from_utf8(self.0).unwrap_or("(unreadable)"))
    }
}

#[derive(Clone, Copy)]
struct CauseText(Cause<BranchNumber>);

impl fmt::Display for CauseText {
    fn fmt<W: fmt::Write>(&self, f: &mut fmt::Formatter<W>) -> fmt::Result {
        match self.0 {
            Cause::Nothing => write!(f, "none"),
            Cause::Patch(patch) => write!(f, "{}", Shown(patch.write().as_slice())),
            Cause::Line(name) => write!(f, "{}", Shown(name.write().as_slice())),
        }
    }
}

impl Report<'_> {
    pub(crate) fn title(&self, title: &str) -> io::Result<()> {
        println!(self.rt; "{title}")
    }

    pub(crate) fn refusal(&self, what: &str, refusal: &Refusal<BranchNumber>) -> io::Result<()> {
        let number = refusal.reason.number();
        let place = refusal.place;
        let cause = CauseText(refusal.cause);
        let layer = refusal.layer;
        println!(self.rt;
            "  {what}: refused, number {number}, place {place}, cause {cause}, layer {layer}"
        )
    }

    pub(crate) fn answer(&self, what: &str, answer: &Answer) -> io::Result<()> {
        match answer {
            Ok(()) => println!(self.rt; "  {what}: granted"),
            Err(refusal) => self.refusal(what, refusal),
        }
    }

    pub(crate) fn fact(&self, what: &str, holds: bool) -> io::Result<()> {
        let word = if holds { "yes" } else { "NO" };
        println!(self.rt; "  {what}: {word}")
    }
}
