// The reader of patch texts. Every line of a patch text ends with byte 10.
ghost use Rattle.std.specs.Prelude.{◌≡◌, ℕ, ◌<◌, Bool, ◌↔◌, List, [], ◌∷◌, length, IfOk, IfErr, MatchOption, MatchResult, OnOk, OnSome};
ghost use Rattle.std.specs.Iterator.{at_most};
ghost use Rattle.graggle.specs.Texts.{Text, split};
ghost use Rattle.graggle.specs.Kinds.{SameTexts};
ghost use Rattle.graggle.specs.Entries.{Entry as MeantEntry};
ghost use Rattle.graggle.specs.Reading.{values, read};
ghost use Rattle.graggle.specs.Claims.{Refused, Writes};
ghost use Rattle.patch.specs.declared.refusals.Cause.TheVariants.{Nothing};
ghost use Rattle.patch.specs.declared.refusals.Layer.TheVariants.{Reader};
ghost use Rattle.patch.specs.Meant.{Amiss, Answers, Faults, Gives, GivesNext, Leaves, LiesIn, MovesOn, Refuses, coming, entry_of, held, places_of, reason_of, to_come};
ghost use Rattle.patch.specs.Refusals.{number_of, Tabled, ValueLine, apply_gives};

use crate::columns::Columns;
use crate::entries::{Entry, MOST_ENTRIES};
use crate::refusals::{Layer, Reason, Refusal};
use crate::values::{LineFault, read_entry};
use kinds::content::Content;
use kinds::identifier::Identifier;
use std::marker::PhantomData;
use texts::pieces::split_first;

// A patch text without fault: its value lines, and the order of their columns. The entries are read off it one by one.
#[derive(Clone, Copy)]
pub struct Patch<'t> {
    columns: Columns,
    values: &'t [u8],
}

// The entries that are still to come, one by one.
#[derive(Clone, Copy)]
pub struct Entries<'t, I, C> {
    columns: Columns,
    rest: &'t [u8],
    kinds: PhantomData<(I, C)>,
}

// They hold numbers and a lent text, and no value of their kinds.
unsafe impl<'t, I, C> Send for Entries<'t, I, C> {}

unsafe impl<'t, I, C> Sync for Entries<'t, I, C> {}

fn fault<I>(reason: Reason, line: usize) -> Refusal<I>
    ensures { result ≡ record { reason = reason; place = line; cause = Nothing; layer = Reader } }
{
    Refusal::plain(reason, line, Layer::Reader)
}

impl<'t, I: Identifier, C: Content> Entries<'t, I, C> {
    // The entry of the value line at the front, and a step behind that line; or the line's fault, and no step.
    fn read_front(&mut self) -> Result<Entry<I, C>, LineFault>
        ensures front { MatchResult result (λ e. Leaves I.lawful C.lawful self.old self.new (entry_of I.text C.text e)) (λ f. Amiss I.lawful C.lawful (places_of self.old.columns) self.old.rest.now (number_of (reason_of f)) × (self.new ≡ self.old)) }
        ensures shorter { OnOk result (length self.new.rest.now < length self.old.rest.now) }
    {
        let (values, behind) = split_first(self.rest, b'\n').ok_or(LineFault::BadValueLine)?;
        let entry = read_entry(values, self.columns)?;
        self.rest = behind;
        Ok(entry)
    }

    // Steps behind the value line at the front, or tells its fault. The number of the line is told.
    fn check_line(&mut self, line: usize) -> Result<(), Refusal<I>>
        requires { ValueLine line }
        ensures passes { MatchResult result (λ _. (e : MeantEntry) × Leaves I.lawful C.lawful self.old self.new e) (Faults I.lawful C.lawful self.old line) }
        ensures fault { IfErr result (Tabled apply_gives) }
    {
        self.read_front()
            .map_err(|wrong| fault(wrong.into(), line))?;
        Ok(())
    }

    // The first fault of the value lines, which begin at line 2 of the text.
    fn check_values(mut self) -> Result<(), Refusal<I>>
        ensures reads { Answers (λ _. to_come I.lawful C.lawful self.entry) (values I.lawful C.lawful (places_of self.entry.columns) 0 (split 10 self.entry.rest.now)) result }
        ensures fault { IfErr result (Tabled apply_gives) }
    {
        if self.rest.is_empty() {
            return Err(fault(Reason::BadCount, 2));
        }
        for count in 0..MOST_ENTRIES {
            self.check_line(count + 2)?;
            if self.rest.is_empty() {
                return Ok(());
            }
        }
        Err(fault(Reason::BadCount, MOST_ENTRIES + 2))
    }
}

impl<'t> Patch<'t> {
    // The patch that a text writes, or the text's first fault.
    pub fn read<I: Identifier, C: Content>(text: &'t [u8]) -> Result<Patch<'t>, Refusal<I>>
        ensures reads { Answers (held I.lawful C.lawful) (read I.lawful C.lawful text.now) result }
        ensures means { (es : List MeantEntry) → Gives (held I.lawful C.lawful) result es ↔ Writes I.lawful C.lawful text.now es }
        ensures refuses { (n p : ℕ) → Refuses result n p ↔ Refused I.lawful C.lawful text.now n p }
        ensures alike { (ids contents : Text → Bool) → SameTexts I.lawful ids → SameTexts C.lawful contents → read I.lawful C.lawful text.now ≡ read ids contents text.now }
        ensures lies { IfOk result (LiesIn text.now) }
        ensures fault { IfErr result (Tabled apply_gives) }
    {
        let (heading, values) = split_first(text, b'\n').ok_or(fault(Reason::BadHeading, 1))?;
        let columns = Columns::read(heading).ok_or(fault(Reason::BadHeading, 1))?;
        let patch = Patch { columns, values };
        patch.entries::<I, C>().check_values()?;
        Ok(patch)
    }

    // The entries in the order of the text.
    pub fn entries<I, C>(&self) -> Entries<'t, I, C>
        ensures columns { result.columns ≡ self.now.columns }
        ensures rest { result.rest ≡ self.now.values }
    {
        Entries {
            columns: self.columns,
            rest: self.values,
            kinds: PhantomData,
        }
    }
}

impl<'t, I, C> Entries<'t, I, C> {
    // The entries that are still to come, to be read as other kinds.
    pub fn read_as<J, D>(&self) -> Entries<'t, J, D>
        ensures columns { result.columns ≡ self.now.columns }
        ensures rest { result.rest ≡ self.now.rest }
    {
        Entries {
            columns: self.columns,
            rest: self.rest,
            kinds: PhantomData,
        }
    }
}

impl<'t, I: Identifier, C: Content> Iterator for Entries<'t, I, C> {
    type Item = Entry<I, C>;

    ghost next_gives = { GivesNext I.lawful C.lawful I.text C.text };

    ghost remaining = { λ s. at_most (length s.rest.now) };

    // The next entry; nothing, and no step, where there is none.
    fn next(&mut self) -> Option<Entry<I, C>> {
        self.read_front().ok()
    }
}
