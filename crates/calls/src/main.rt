// Calls of the library with every kind of refusal, all four fields of each, and what memory and volume hold afterwards.
#![tactic(auto)]

mod cases;
mod memory;
mod show;
mod small;

use show::Report;
use std::io;

fn main(rt: HostRuntime) -> io::Result<()> {
    let report = Report { rt: &rt };
    small::volumes(&report)?;
    memory::page_memory(&report)?;
    report.title("What the script tool refuses")?;
    report.refusal("line 7 is no command", &script::tool::script_fault(7))
}
