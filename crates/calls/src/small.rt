// Refusals of apply and unapply on small volumes.
ghost use Rattle.std.specs.Prelude.{◌≤◌};

use crate::cases::{Call, run};
use crate::show::Report;
use flat::flat_store::FlatStore;
use lending::memory::{LoanLine, LoanLink, LoanStrike};
use std::io;
use volume::volume::Volume;

const READINGS: [(&str, Call); 10] = [
    (
        "an identifier with a leading zero",
        Call::Apply(b"1.01", b"act;line;to;text\na;1.1:0;;x\n"),
    ),
    ("the same to be taken back", Call::Unapply(b"1.01")),
    (
        "a heading with a name twice",
        Call::Apply(b"1.1", b"act;line;act;text\na;1.1:0;;x\n"),
    ),
    (
        "a heading without its ending",
        Call::Apply(b"1.1", b"act;line;to;text"),
    ),
    (
        "an act that is none",
        Call::Apply(b"1.1", b"act;line;to;text\nb;1.1:0;;x\n"),
    ),
    (
        "a second value line without its ending",
        Call::Apply(b"1.1", b"act;line;to;text\na;1.1:0;;x\na;1.1:1;;y"),
    ),
    (
        "an index of 256",
        Call::Apply(b"1.1", b"act;line;to;text\na;1.1:256;;x\n"),
    ),
    (
        "a content with a tab",
        Call::Apply(b"1.1", b"act;line;to;text\na;1.1:0;;\t\n"),
    ),
    ("no value line", Call::Apply(b"1.1", b"act;line;to;text\n")),
    (
        "all well",
        Call::Apply(b"1.1", b"text;to;line;act\nx;;1.1:0;a\n"),
    ),
];

const ENTRIES: [(&str, Call); 10] = [
    (
        "patch 1.1",
        Call::Apply(
            b"1.1",
            b"act;line;to;text\nk;1.1:0;1.1:1;\na;1.1:0;;x\na;1.1:1;;y\n",
        ),
    ),
    (
        "patch 1.1 again",
        Call::Apply(b"1.1", b"act;line;to;text\na;1.1:2;;z\n"),
    ),
    (
        "another patch's line is added",
        Call::Apply(b"2.1", b"act;line;to;text\na;1.1:2;;z\n"),
    ),
    (
        "an own line is struck",
        Call::Apply(b"2.1", b"act;line;to;text\na;2.1:0;;z\ns;2.1:0;;\n"),
    ),
    (
        "a line is linked to itself",
        Call::Apply(b"2.1", b"act;line;to;text\nk;1.1:0;1.1:0;\n"),
    ),
    (
        "an entry is repeated",
        Call::Apply(b"2.1", b"act;line;to;text\ns;1.1:0;;\ns;1.1:0;;\n"),
    ),
    (
        "a patch that does not stand is named",
        Call::Apply(b"2.1", b"act;line;to;text\nk;1.1:0;3.1:0;\n"),
    ),
    (
        "a line that its patch does not add is named",
        Call::Apply(b"2.1", b"act;line;to;text\ns;1.1:9;;\n"),
    ),
    (
        "an own line that is not added is named",
        Call::Apply(b"2.1", b"act;line;to;text\nk;1.1:0;2.1:0;\n"),
    ),
    (
        "patch 2.1 with its own line added later",
        Call::Apply(b"2.1", b"act;line;to;text\nk;1.1:0;2.1:0;\na;2.1:0;;z\n"),
    ),
];

const CAPACITIES: [(&str, Call); 8] = [
    (
        "3 lines and 2 links",
        Call::Apply(
            b"1.1",
            b"act;line;to;text\na;1.1:0;;x\na;1.1:1;;y\na;1.1:2;;z\nk;1.1:0;1.1:1;\nk;1.1:1;1.1:2;\n",
        ),
    ),
    (
        "2 lines and 2 links",
        Call::Apply(
            b"1.1",
            b"act;line;to;text\na;1.1:0;;x\na;1.1:1;;y\nk;1.1:0;1.1:1;\nk;1.1:1;1.1:0;\n",
        ),
    ),
    (
        "2 lines and 1 link",
        Call::Apply(
            b"1.1",
            b"act;line;to;text\na;1.1:0;;x\na;1.1:1;;y\nk;1.1:0;1.1:1;\n",
        ),
    ),
    (
        "1 line more",
        Call::Apply(b"2.1", b"act;line;to;text\na;2.1:0;;z\n"),
    ),
    (
        "1 link more, the same from another patch",
        Call::Apply(b"2.1", b"act;line;to;text\nk;1.1:0;1.1:1;\n"),
    ),
    (
        "1 strike",
        Call::Apply(b"2.1", b"act;line;to;text\ns;1.1:0;;\n"),
    ),
    (
        "1 strike more",
        Call::Apply(b"3.1", b"act;line;to;text\ns;1.1:0;;\n"),
    ),
    (
        "2 strikes",
        Call::Apply(b"3.1", b"act;line;to;text\ns;1.1:0;;\ns;1.1:1;;\n"),
    ),
];

const NO_ROOM: [(&str, Call); 3] = [
    (
        "1 line",
        Call::Apply(b"1.1", b"act;line;to;text\na;1.1:0;;x\n"),
    ),
    (
        "a strike of a line that is not there",
        Call::Apply(b"1.1", b"act;line;to;text\ns;2.1:0;;\n"),
    ),
    ("a patch to be taken back", Call::Unapply(b"1.1")),
];

const UNAPPLIES: [(&str, Call); 9] = [
    (
        "patch 1.1",
        Call::Apply(b"1.1", b"act;line;to;text\na;1.1:0;;x\na;1.1:1;;y\n"),
    ),
    (
        "patch 10.1, a link",
        Call::Apply(b"10.1", b"act;line;to;text\nk;1.1:0;1.1:1;\n"),
    ),
    (
        "patch 9.1, a strike",
        Call::Apply(b"9.1", b"act;line;to;text\ns;1.1:1;;\n"),
    ),
    ("2.1 back, which never came", Call::Unapply(b"2.1")),
    ("1.1 back, named by two", Call::Unapply(b"1.1")),
    ("9.1 back", Call::Unapply(b"9.1")),
    ("1.1 back, named by one", Call::Unapply(b"1.1")),
    ("10.1 back", Call::Unapply(b"10.1")),
    ("1.1 back, named by none", Call::Unapply(b"1.1")),
];

// The calls of a table, to an empty volume with room for so many lines, links and strikes.
fn try_on<const LINES: usize, const LINKS: usize, const STRIKES: usize>(
    report: &Report,
    title: &str,
    cases: &[(&str, Call)],
) -> io::Result<()>
    requires lines { LINES ≤ 4 }
    requires links { LINKS ≤ 4 }
    requires strikes { STRIKES ≤ 4 }
{
    report.title(title)?;
    let mut lines = [LoanLine::default(); LINES];
    let mut links = [LoanLink::default(); LINKS];
    let mut strikes = [LoanStrike::default(); STRIKES];
    let mut volume = Volume::new(FlatStore::new(&mut lines, &mut links, &mut strikes));
    run(report, &mut volume, cases)
}

pub(crate) fn volumes(report: &Report) -> io::Result<()> {
    try_on::<4, 4, 4>(report, "What the reader refuses", &READINGS)?;
    try_on::<4, 4, 4>(report, "What the volume refuses to take", &ENTRIES)?;
    try_on::<2, 1, 1>(
        report,
        "A store with room for 2 lines, 1 link and 1 strike",
        &CAPACITIES,
    )?;
    try_on::<0, 0, 0>(report, "A store with no room at all", &NO_ROOM)?;
    try_on::<4, 4, 4>(report, "What the volume refuses to take back", &UNAPPLIES)
}
