// The script as a machine: it goes from line to line, and gives the commands one by one.
ghost use Rattle.std.specs.Prelude.{◌≡◌, ◌<◌, length, MatchOption, OnSome};
ghost use Rattle.std.specs.Iterator.{at_most};
ghost use Rattle.script.specs.Left.{begun, left};
ghost use Rattle.script.specs.Places.{place_of};

use crate::script_line::{Saying, ScriptLine};
use texts::pieces::split_first;

// A longer script is not looked at.
pub const LONGEST_SCRIPT: usize = 32_768;

// What to do with the volume.
#[derive(Clone, Copy, PartialEq, Eq, Debug)]
pub enum Command<'t> {
    Apply { id: &'t [u8], text: &'t [u8] },
    Unapply { id: &'t [u8] },
    Page,
}

// What stands in a script in the place of a command.
#[derive(Clone, Copy, PartialEq, Eq, Debug)]
pub enum ScriptError {
    // The script has more than `LONGEST_SCRIPT` bytes.
    TooLong,
    // The line with this number is no command, or an apply that lacks its `end`.
    NoCommand { line: usize },
}

impl ScriptError {
    // The line, or 0 for the whole of a script that is too long.
    pub fn place(&self) -> usize
        ensures { result ≡ place_of self.now }
    {
        match self {
            ScriptError::TooLong => 0,
            ScriptError::NoCommand { line } => *line,
        }
    }
}

// An apply that began at a line, and whose patch text is the front of `text`.
#[derive(Clone, Copy)]
struct Inside<'t> {
    id: &'t [u8],
    line: usize,
    text: &'t [u8],
}

#[derive(Clone, Copy)]
pub struct Script<'t> {
    rest: &'t [u8],
    // How many lines were taken so far.
    lines: usize,
    // The apply that the machine is inside; nothing between commands.
    state: Option<Inside<'t>>,
}

// A text without its tail.
fn front<'t>(text: &'t [u8], tail: &[u8]) -> &'t [u8] {
    let len = text.len().saturating_sub(tail.len());
    &text[..len]
}

// A line is judged by the state and what it says: the state after it, and the command that it completes.
fn judge<'t>(
    state: Option<Inside<'t>>,
    line: ScriptLine<'t>,
) -> (Option<Inside<'t>>, Option<Result<Command<'t>, ScriptError>>)
    ensures ended { OnSome result.1 (begun result.0 ≡ 0) }
{
    match (state, line.saying) {
        // Between commands.
        (None, Some(Saying::Apply(id))) => {
            let inside = Inside {
                id,
                line: line.number,
                text: line.behind,
            };
            (Some(inside), None)
        }
        (None, Some(Saying::Unapply(id))) => (None, Some(Ok(Command::Unapply { id }))),
        (None, Some(Saying::Page)) => (None, Some(Ok(Command::Page))),
        (None, _) => (
            None,
            Some(Err(ScriptError::NoCommand { line: line.number })),
        ),
        // Inside an apply.
        (Some(Inside { id, text, .. }), Some(Saying::End)) => {
            let text = front(text, line.from);
            (None, Some(Ok(Command::Apply { id, text })))
        }
        (Some(_), _) => (state, None),
    }
}

impl<'t> Script<'t> {
    pub fn new(bytes: &'t [u8]) -> Script<'t> {
        Script {
            rest: bytes,
            lines: 0,
            state: None,
        }
    }

    // The next line that has its ending.
    fn take_line(&mut self) -> Option<ScriptLine<'t>>
        ensures shorter { MatchOption result (self.new ≡ self.old) (λ _. length self.new.rest.now < length self.old.rest.now) }
        ensures state { self.new.state ≡ self.old.state }
    {
        let from = self.rest;
        let (line, behind) = split_first(from, b'\n')?;
        self.rest = behind;
        self.lines = self.lines.saturating_add(1);
        Some(ScriptLine {
            number: self.lines,
            saying: Saying::read(line),
            from,
            behind,
        })
    }

    // At the end of the script, an apply lacks its `end`, or the last line between commands its ending.
    fn finish(&mut self) -> Option<Result<Command<'t>, ScriptError>>
        ensures less { OnSome result (left self.new < left self.old) }
    {
        let unended = !self.rest.is_empty();
        self.rest = &[];
        if let Some(Inside { line, .. }) = self.state.take() {
            return Some(Err(ScriptError::NoCommand { line }));
        }
        let line = self.lines.saturating_add(1);
        unended.then_some(Err(ScriptError::NoCommand { line }))
    }
}

impl<'t> Iterator for Script<'t> {
    type Item = Result<Command<'t>, ScriptError>;

    // Each command uses up some of the script, so a script ends.
    ghost next_gives = { λ s r t. OnSome r (left t < left s) };

    ghost remaining = { λ s. at_most (left s) };

    fn next(&mut self) -> Option<Result<Command<'t>, ScriptError>> {
        if LONGEST_SCRIPT < self.rest.len() {
            self.rest = &[];
            return Some(Err(ScriptError::TooLong));
        }
        while let Some(line) = self.take_line() {
            let (state, command) = judge(self.state, line);
            self.state = state;
            if command.is_some() {
                return command;
            }
        }
        self.finish()
    }
}
