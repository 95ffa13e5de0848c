ghost use Rattle.std.specs.Prelude.{◌≡◌, ◌<◌, ◌≤◌, length, drop, IfOk, IfErr, OnErr};
ghost use Rattle.patch.specs.Refusals.{Tabled, apply_gives, page_gives, unapply_gives};

use crate::adding::add_entries;
use crate::applying::Application;
use crate::unapplying::check_unapply;
use kinds::identifier::Identifier;
use page::page::write_page;
use patch::reader::Patch;
use patch::refusals::{Layer, Reason, Refusal};
use store::store::Store;

// A volume is its store and nothing more.
#[derive(Drop)]
pub struct Volume<S> {
    store: S,
}

fn read_identifier<I: Identifier>(text: &[u8]) -> Result<I, Refusal<I>>
    ensures apply { IfErr result (Tabled apply_gives) }
    ensures unapply { IfErr result (Tabled unapply_gives) }
{
    I::read(text).ok_or(Refusal::plain(Reason::UnlawfulIdentifier, 0, Layer::Reader))
}

impl<S: Store> Volume<S> {
    pub fn new(store: S) -> Volume<S>
        ensures { result.store ≡ store }
    {
        Volume { store }
    }

    // Takes a patch: it stands from now on. A refusal changes nothing.
    pub fn apply(&mut self, id: &[u8], text: &[u8]) -> Result<(), Refusal<S::Id>>
        ensures fault { IfErr result (Tabled apply_gives) }
        ensures same { OnErr result (self.new ≡ self.old) }
    {
        let patch = read_identifier(id)?;
        let text = Patch::read::<S::Id, S::Content>(text)?;
        Application::new(&self.store, patch, text).check()?;
        add_entries(&mut self.store, &patch, &text);
        Ok(())
    }

    // Takes a patch back: it stands no longer. A refusal changes nothing.
    pub fn unapply(&mut self, id: &[u8]) -> Result<(), Refusal<S::Id>>
        ensures fault { IfErr result (Tabled unapply_gives) }
        ensures same { OnErr result (self.new ≡ self.old) }
    {
        let patch = read_identifier(id)?;
        check_unapply(&self.store, &patch)?;
        let _ = self.store.drop_patch(&patch);
        Ok(())
    }

    // Writes the page to the front of the memory and answers its length; bytes after it keep their values. Memory that is
    // too short is refused and left as it was. The contract of `write_page`, told again, since this is the call that users see.
    pub fn page(&self, memory: &mut [u8]) -> Result<usize, Refusal<S::Id>>
        ensures bound { IfOk result (λ n. n ≤ 28698) }
        ensures fits { IfOk result (λ n. n ≤ length memory.old) }
        ensures rest { IfOk result (λ n. drop n memory.new ≡ drop n memory.old) }
        ensures fault { IfErr result (Tabled page_gives) }
        ensures short { IfErr result (λ f. length memory.old < f.place) }
        ensures same { OnErr result (memory.new ≡ memory.old) }
    {
        write_page(&self.store, memory)
    }
}
