// The commands of a script, done to a volume.
ghost use Rattle.std.specs.Prelude.{◌≡◌, ◌≤◌, length, IfOk};
ghost use Rattle.patch.specs.declared.refusals.Cause.TheVariants.{Nothing};
ghost use Rattle.patch.specs.declared.refusals.Layer.TheVariants.{Tool};
ghost use Rattle.patch.specs.declared.refusals.Reason.TheVariants.{BadScript};
ghost use Rattle.script.specs.Places.{place_of};

use crate::answers::refused_text;
use crate::machine::{Command, ScriptError};
use page::page::LONGEST_PAGE;
use patch::refusals::{Layer, Reason, Refusal};
use store::store::Store;
use volume::volume::Volume;

// The refusal of a line that is no command, or of a script that is too long, whose place is 0.
pub fn script_fault<I>(line: usize) -> Refusal<I>
    ensures { result ≡ record { reason = BadScript; place = line; cause = Nothing; layer = Tool } }
{
    Refusal::plain(Reason::BadScript, line, Layer::Tool)
}

impl<I> From<ScriptError> for Refusal<I> {
    ghost from_gives = { λ e r. r ≡ record { reason = BadScript; place = place_of e; cause = Nothing; layer = Tool } };

    fn from(error: ScriptError) -> Refusal<I> {
        script_fault(error.place())
    }
}

// Puts a text at the front of the memory, as much of it as there is room for, and says how much that is.
fn put(memory: &mut [u8], text: &[u8]) -> usize
    ensures { result ≤ length memory.old }
{
    let len = text.len().min(memory.len());
    memory[..len].copy_from_slice(&text[..len]);
    len
}

// Does the command, and leaves what it prints at the front of the memory where it is granted; its length.
fn granted<S: Store>(
    volume: &mut Volume<S>,
    command: Result<Command, ScriptError>,
    memory: &mut [u8],
) -> Result<usize, Refusal<S::Id>>
    ensures { IfOk result (λ n. n ≤ length memory.old) }
{
    match command? {
        Command::Apply { id, text } => volume.apply(id, text)?,
        Command::Unapply { id } => volume.unapply(id)?,
        Command::Page => return volume.page(memory),
    }
    Ok(put(memory, b"ok\n"))
}

// Does the command, and gives what it prints: the page, `ok`, or the refusal. It stands in the memory, which has room for every page,
// so no page is refused.
pub fn perform<'m, S: Store>(
    volume: &mut Volume<S>,
    command: Result<Command, ScriptError>,
    memory: &'m mut [u8; LONGEST_PAGE],
) -> &'m [u8] {
    let len = match granted(volume, command, memory) {
        Ok(len) => len,
        Err(refusal) => put(memory, refused_text(&refusal).as_slice()),
    };
    &memory[..len]
}
