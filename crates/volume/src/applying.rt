// The tests of apply, after the patch text is read.
ghost use Rattle.std.specs.Prelude.{IfErr};
ghost use Rattle.patch.specs.Refusals.{Tabled, apply_gives};

use crate::entries::{adds_line, first_name, is_forbidden, is_same};
use crate::faults::{EntryFault, refusal};
use crate::standing::stands;
use patch::entries::{Entry, MOST_ENTRIES};
use patch::names::LineName;
use patch::reader::{Entries, Patch};
use patch::refusals::{Cause, Reason, Refusal};
use store::room::check_room;
use store::sizes::Sizes;
use store::store::Store;

// A patch that is about to be applied.
#[derive(Drop)]
pub(crate) struct Application<'a, S: Store> {
    store: &'a S,
    patch: S::Id,
    text: Patch<'a>,
}

impl<'a, S: Store> Application<'a, S> {
    pub(crate) fn new(store: &'a S, patch: S::Id, text: Patch<'a>) -> Application<'a, S> {
        Application { store, patch, text }
    }

    fn entries(&self) -> Entries<'a, S::Id, S::Content> {
        self.text.entries()
    }

    // Whether one of the first `place` entries of the text is the same.
    fn is_repeated(&self, place: usize, entry: &Entry<S::Id, S::Content>) -> bool {
        self.entries()
            .take(place)
            .any(|earlier| is_same(&earlier, entry))
    }

    // An entry of this text, earlier or later, adds the line.
    fn check_own_name(&self, name: &LineName<S::Id>) -> Result<(), EntryFault<S::Id>> {
        if self.entries().any(|entry| adds_line(&entry, name)) {
            Ok(())
        } else {
            Err(EntryFault::UnknownLine(*name))
        }
    }

    // An entry names only patches that stand, or its own, and only lines that these add.
    fn check_name(&self, name: &LineName<S::Id>) -> Result<(), EntryFault<S::Id>> {
        if name.belongs_to(&self.patch) {
            return self.check_own_name(name);
        }
        if !stands(self.store, &name.patch) {
            return Err(EntryFault::UnknownPatch(name.patch));
        }
        match self.store.rank(name) {
            Some(_) => Ok(()),
            None => Err(EntryFault::UnknownLine(*name)),
        }
    }

    // The names in the columns `line` and `to`.
    fn check_names(&self, entry: &Entry<S::Id, S::Content>) -> Result<(), EntryFault<S::Id>> {
        match entry {
            Entry::Add { line, .. } | Entry::Strike { line } => self.check_name(line),
            Entry::Link { from, to } => {
                self.check_name(from)?;
                self.check_name(to)
            }
        }
    }

    // The entry at a place counted from 0.
    fn check_entry(
        &self,
        place: usize,
        entry: &Entry<S::Id, S::Content>,
    ) -> Result<(), EntryFault<S::Id>> {
        if is_forbidden(&self.patch, entry) {
            return Err(EntryFault::ForbiddenName(first_name(entry)));
        }
        if self.is_repeated(place, entry) {
            return Err(EntryFault::RepeatedEntry(first_name(entry)));
        }
        self.check_names(entry)
    }

    // Each entry of the text, up to the first fault.
    fn check_entries(&self) -> Result<(), Refusal<S::Id>>
        ensures fault { IfErr result (Tabled apply_gives) }
    {
        // A range beside the entries, since it bounds the line.
        for (place, entry) in (0..MOST_ENTRIES).zip(self.entries()) {
            // Line 1 is the heading.
            let line = place + 2;
            self.check_entry(place, &entry)
                .map_err(|fault| fault.at(line))?;
        }
        Ok(())
    }

    // How many records the entries give. A loop, so that each entry is read once.
    fn weigh(&self) -> Sizes {
        let mut sizes = Sizes::default();
        // A range beside the entries, since it bounds the sizes.
        for (_, entry) in (0..MOST_ENTRIES).zip(self.entries()) {
            match entry {
                Entry::Add { .. } => sizes.lines += 1,
                Entry::Link { .. } => sizes.links += 1,
                Entry::Strike { .. } => sizes.strikes += 1,
            }
        }
        sizes
    }

    // Whether the patch can be applied: it does not stand, its entries are without fault, and there is room for them.
    pub(crate) fn check(&self) -> Result<(), Refusal<S::Id>>
        ensures fault { IfErr result (Tabled apply_gives) }
    {
        if stands(self.store, &self.patch) {
            return Err(refusal(Reason::AlreadyStands, 0, Cause::Patch(self.patch)));
        }
        self.check_entries()?;
        check_room(self.store, self.weigh())
    }
}
