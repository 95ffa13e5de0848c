// One value line of a patch text. The values are tested in the order act, line, to, text.
ghost use Rattle.std.specs.Prelude.{◌≡◌, true, false, ◌==◌, length, MatchResult, Some, None};
ghost use Rattle.graggle.specs.Texts.{blank, split};
ghost use Rattle.graggle.specs.Names.{name};
ghost use Rattle.graggle.specs.Reading.{act_of, adding, entry, linking, striking, value_line};
ghost use Rattle.patch.specs.declared.values.LineFault.TheVariants.{BadValueLine};
ghost use Rattle.patch.specs.Meant.{name_of, places_of, reason_of, said_by, HoldsValues};

use crate::columns::Columns;
use crate::entries::Entry;
use crate::names::LineName;
use crate::refusals::Reason;
use kinds::content::Content;
use kinds::identifier::Identifier;
use texts::pieces::{marks, piece};

// What is wrong with a value line: it is not written as an entry is, or its content is not lawful.
#[derive(Clone, Copy, PartialEq, Eq, Debug)]
pub(crate) enum LineFault {
    BadValueLine,
    UnlawfulContent,
}

impl From<LineFault> for Reason {
    ghost from_gives = { λ f r. r ≡ reason_of f };

    fn from(fault: LineFault) -> Reason {
        match fault {
            LineFault::BadValueLine => Reason::BadValueLine,
            LineFault::UnlawfulContent => Reason::UnlawfulContent,
        }
    }
}

// The four values of a line.
#[derive(Clone, Copy)]
struct Values<'t> {
    act: &'t [u8],
    line: &'t [u8],
    to: &'t [u8],
    text: &'t [u8],
}

fn read_name<I: Identifier>(value: &[u8]) -> Result<LineName<I>, LineFault>
    ensures { MatchResult result (λ n. name I.lawful value.now ≡ Some (name_of I.text n)) (λ f. (name I.lawful value.now ≡ None) × (f ≡ BadValueLine)) }
{
    LineName::read(value).ok_or(LineFault::BadValueLine)
}

fn check_blank(value: &[u8]) -> Result<(), LineFault>
    ensures { MatchResult result (λ _. blank value.now ≡ true) (λ f. (blank value.now ≡ false) × (f ≡ BadValueLine)) }
{
    if value.is_empty() {
        Ok(())
    } else {
        Err(LineFault::BadValueLine)
    }
}

impl<'t> Values<'t> {
    // The values of a line without its ending.
    fn read(line: &'t [u8], columns: Columns) -> Result<Values<'t>, LineFault>
        ensures { MatchResult result (HoldsValues columns line.now) (λ f. ((length (split 59 line.now) == 4) ≡ false) × (f ≡ BadValueLine)) }
    {
        if marks(line, b';') != 3 {
            return Err(LineFault::BadValueLine);
        }
        Ok(Values {
            act: piece(line, b';', columns.act),
            line: piece(line, b';', columns.line),
            to: piece(line, b';', columns.to),
            text: piece(line, b';', columns.text),
        })
    }

    fn read_add<I: Identifier, C: Content>(&self) -> Result<Entry<I, C>, LineFault>
        ensures { said_by I.text C.text result ≡ adding C.lawful (name I.lawful self.now.line.now) self.now.to.now self.now.text.now }
    {
        let line = read_name(self.line)?;
        check_blank(self.to)?;
        let content = C::read(self.text).ok_or(LineFault::UnlawfulContent)?;
        Ok(Entry::Add { line, content })
    }

    fn read_link<I: Identifier, C: Content>(&self) -> Result<Entry<I, C>, LineFault>
        ensures { said_by I.text C.text result ≡ linking (name I.lawful self.now.line.now) (name I.lawful self.now.to.now) self.now.text.now }
    {
        let from = read_name(self.line)?;
        let to = read_name(self.to)?;
        check_blank(self.text)?;
        Ok(Entry::Link { from, to })
    }

    fn read_strike<I: Identifier, C: Content>(&self) -> Result<Entry<I, C>, LineFault>
        ensures { said_by I.text C.text result ≡ striking (name I.lawful self.now.line.now) self.now.to.now self.now.text.now }
    {
        let line = read_name(self.line)?;
        check_blank(self.to)?;
        check_blank(self.text)?;
        Ok(Entry::Strike { line })
    }

    fn entry<I: Identifier, C: Content>(&self) -> Result<Entry<I, C>, LineFault>
        ensures { said_by I.text C.text result ≡ entry I.lawful C.lawful (act_of self.now.act.now) self.now.line.now self.now.to.now self.now.text.now }
    {
        let [act] = self.act else {
            return Err(LineFault::BadValueLine);
        };
        match *act as char {
            'a' => self.read_add(),
            'k' => self.read_link(),
            's' => self.read_strike(),
            _ => Err(LineFault::BadValueLine),
        }
    }
}

// The entry of a value line, without its ending, or why there is none.
pub(crate) fn read_entry<I: Identifier, C: Content>(
    line: &[u8],
    columns: Columns,
) -> Result<Entry<I, C>, LineFault>
    ensures { said_by I.text C.text result ≡ value_line I.lawful C.lawful (places_of columns) (split 59 line.now) }
{
    Values::read(line, columns)?.entry()
}
