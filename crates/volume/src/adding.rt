// The records of a patch go into the store.
use patch::entries::Entry;
use patch::reader::Patch;
use store::records::{Line, Link, Strike};
use store::store::Store;

// The record that the entry gives. After the tests of apply the store refuses none.
fn add_entry<S: Store>(store: &mut S, patch: &S::Id, entry: &Entry<S::Id, S::Content>) {
    let _ = match entry {
        Entry::Add { line, content } => store.add_line(&Line {
            name: *line,
            content: *content,
        }),
        Entry::Link { from, to } => store.add_link(&Link {
            from: *from,
            to: *to,
            owner: *patch,
        }),
        Entry::Strike { line } => store.add_strike(&Strike {
            line: *line,
            owner: *patch,
        }),
    };
}

pub(crate) fn add_entries<S: Store>(store: &mut S, patch: &S::Id, text: &Patch) {
    for entry in text.entries::<S::Id, S::Content>() {
        add_entry(store, patch, &entry);
    }
}
