// Tables of lawful and unlawful texts for each kind, at every limit.
#![tactic(auto)]

mod branches;
mod fingerprints;
mod lines;
mod names;
mod numbers;
mod order;
mod report;
mod rows;
mod stock;

use report::Report;
use std::io;

fn main(rt: HostRuntime) -> io::Result<()> {
    let report = Report::new(&rt);
    numbers::tables(&report)?;
    branches::tables(&report)?;
    fingerprints::tables(&report)?;
    lines::tables(&report)?;
    stock::tables(&report)?;
    names::tables(&report)?;
    report.end()
}
