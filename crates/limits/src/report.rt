// One line for each row, and one more where an answer is not the expected one.
use crate::rows::{Pair, Quoted, TextRow};
use kinds::written::Written;
use std::cell::Cell;
use std::io;
use texts::text::ShortText;

#[derive(Drop)]
pub struct Report<'r> {
    pub rt: &'r HostRuntime,
    differing: Cell<u32>,
}

// How the report calls texts that are lawful, and those that are not.
pub(crate) fn word_of(is_lawful: bool) -> &'static str {
    if is_lawful { "lawful" } else { "unlawful" }
}

impl<'r> Report<'r> {
    pub(crate) fn new(rt: &'r HostRuntime) -> Report<'r> {
        Report {
            rt,
            differing: Cell::new(0),
        }
    }

    pub(crate) fn title(&self, title: &str) -> io::Result<()> {
        println!(self.rt; "{title}")
    }

    // Says what is wrong in the line above, unless it is as expected.
    pub(crate) fn expect(&self, what: &str, holds: bool) -> io::Result<()> {
        if holds {
            return Ok(());
        }
        self.differing.set(self.differing.get().saturating_add(1));
        println!(self.rt; "  DIFFERS FROM WHAT IS EXPECTED: {what}")
    }

    // The same of a call with a text, which the line above need not show.
    fn expect_of(&self, call: &str, text: &[u8], holds: bool) -> io::Result<()> {
        if !holds {
            print!(self.rt; "  {}", Quoted(text))?;
        }
        self.expect(call, holds)
    }

    // `told` is what the function says that only tells whether a text is lawful, and `written` what `write` gives for the
    // value that `read` gives. Both have to be as the row says.
    pub(crate) fn hold(&self, row: &TextRow, told: bool, written: Option<&[u8]>) -> io::Result<()> {
        let text = row.value();
        let is_lawful = row.is_lawful();
        self.expect_of("read", text, written.is_some() == is_lawful)?;
        self.expect_of("the function that tells", text, told == is_lawful)?;
        match written {
            Some(written) => self.expect_of("write", text, written == text),
            None => Ok(()),
        }
    }

    // A lawful text is shown as `write` gave it back.
    fn show(&self, text: &[u8], written: Option<&[u8]>) -> io::Result<()> {
        let word = word_of(written.is_some());
        let len = text.len();
        let shown = Quoted(written.unwrap_or(text));
        println!(self.rt; "  {word:<8}  length {len:>2}  {shown}")
    }

    // Asks the calls of a kind for every row. `tells` only says whether a text is lawful.
    pub(crate) fn rows<V: Drop, T, R, W>(
        &self,
        rows: &[TextRow],
        tells: T,
        read: R,
        write: W,
    ) -> io::Result<()>
    where
        T: Fn(&[u8]) -> bool,
        R: Fn(&[u8]) -> Option<V>,
        W: Fn(&V) -> ShortText,
        requires tells { T.IsAlwaysCallable tells }
        requires read { R.IsAlwaysCallable read }
        requires write { W.IsAlwaysCallable write }
    {
        for row in rows {
            let text = row.value();
            let written = read(text).map(|value| write(&value));
            let written = written.as_ref().map(|written| written.as_slice());
            self.show(text, written)?;
            self.hold(row, tells(text), written)?;
        }
        Ok(())
    }

    // The same of a kind, which has these calls from its trait.
    pub(crate) fn kind<K: Written>(&self, rows: &[TextRow]) -> io::Result<()> {
        self.rows(
            rows,
            |text| K::is_lawful(text),
            |text| K::read(text),
            |value| value.write(),
        )
    }

    // What a value holds that is made of two numbers: these two, if any.
    pub(crate) fn pairs<H>(&self, pairs: &[Pair], held: H) -> io::Result<()>
    where
        H: Fn(u32, u32) -> Option<(u32, u32)>,
        requires { H.IsAlwaysCallable held }
    {
        for pair in pairs {
            let (first, second) = pair.value();
            let held = held(first, second);
            let word = if held.is_some() { "made" } else { "refused" };
            println!(self.rt; "  {word:<7}  {first} and {second}")?;
            self.expect("new", held == pair.is_lawful().then_some((first, second)))?;
        }
        Ok(())
    }

    pub(crate) fn count(&self, what: &str, found: usize, expected: usize) -> io::Result<()> {
        println!(self.rt; "  {what}: {found}")?;
        self.expect(what, found == expected)
    }

    // The longest lawful text of a kind, as its constant and as its function tell it, each under its name.
    pub(crate) fn longest<K: Written>(
        &self,
        constant: &str,
        function: &str,
        expected: usize,
    ) -> io::Result<()> {
        self.count(constant, K::LONGEST, expected)?;
        self.count(function, K::longest_text(), expected)
    }

    pub(crate) fn end(&self) -> io::Result<()> {
        let differing = self.differing.get();
        println!(self.rt; "Answers that differ: {differing}")
    }
}
