// The patches of the week.
use crate::words::as_text;
use std::io;

#[derive(Clone, Copy)]
pub struct LoanPatch {
    pub id: &'static str,
    pub text: &'static [u8],
}

impl LoanPatch {
    // The lines of the patch text, indented and numbered: a refusal tells the number of a line.
    pub(crate) fn print(&self, rt: &HostRuntime) -> io::Result<()> {
        for (number, line) in (1usize..).zip(as_text(self.text).lines()) {
            println!(rt; "    {number:>2}  {line}")?;
        }
        Ok(())
    }
}

// The old loan text, which every house holds before the week.
pub const OLD_TEXT: LoanPatch = LoanPatch {
    id: "1.1",
    text: b"act;line;to;text\n\
        a;1.1:0;;Show your library card.\n\
        a;1.1:1;;Borrow up to six books at a time.\n\
        a;1.1:2;;Keep a book for three weeks.\n\
        a;1.1:3;;Renew a loan once, unless another reader waits.\n\
        a;1.1:4;;Nobody pays a fine.\n\
        k;1.1:0;1.1:1;\n\
        k;1.1:1;1.1:2;\n\
        k;1.1:2;1.1:3;\n\
        k;1.1:3;1.1:4;\n",
};

// A line between 1.1:2 and 1.1:3.
pub const WAITS_AT_THE_DESK: LoanPatch = LoanPatch {
    id: "12.1",
    text: b"act;line;to;text\n\
        a;12.1:0;;A reserved book waits at the desk for three days.\n\
        k;1.1:2;12.1:0;\n\
        k;12.1:0;1.1:3;\n",
};

// Another line in the same place.
pub const RESERVE_ANYWHERE: LoanPatch = LoanPatch {
    id: "20.1",
    text: b"act;line;to;text\n\
        a;20.1:0;;Reserve a book at any of the three houses.\n\
        k;1.1:2;20.1:0;\n\
        k;20.1:0;1.1:3;\n",
};

// A line after that of 20.1.
pub const WE_TELEPHONE: LoanPatch = LoanPatch {
    id: "20.2",
    text: b"act;line;to;text\n\
        a;20.2:0;;We telephone when a reserved book has come.\n\
        k;20.1:0;20.2:0;\n\
        k;20.2:0;1.1:3;\n",
};

// The line of 12.1 comes after those of 20.1 and 20.2.
pub const ORDER: LoanPatch = LoanPatch {
    id: "30.1",
    text: b"act;line;to;text\n\
        k;20.2:0;12.1:0;\n",
};
