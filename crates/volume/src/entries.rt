// What the tests of apply ask of one entry.
use kinds::content::Content;
use kinds::identifier::Identifier;
use patch::entries::Entry;
use patch::names::LineName;

// The name in the column `line`.
pub(crate) fn first_name<I: Identifier, C: Content>(entry: &Entry<I, C>) -> LineName<I> {
    match entry {
        Entry::Add { line, .. } | Entry::Strike { line } => *line,
        Entry::Link { from, .. } => *from,
    }
}

// A patch adds only its own lines, strikes only others', and links no line to itself.
pub(crate) fn is_forbidden<I: Identifier, C: Content>(patch: &I, entry: &Entry<I, C>) -> bool {
    match entry {
        Entry::Add { line, .. } => !line.belongs_to(patch),
        Entry::Link { from, to } => from.is(to),
        Entry::Strike { line } => line.belongs_to(patch),
    }
}

// Whether two entries have the same act and the same names.
pub(crate) fn is_same<I: Identifier, C: Content>(one: &Entry<I, C>, other: &Entry<I, C>) -> bool {
    match (one, other) {
        (Entry::Add { line, .. }, Entry::Add { line: same, .. }) => line.is(same),
        (
            Entry::Link { from, to },
            Entry::Link {
                from: same_from,
                to: same_to,
            },
        ) => from.is(same_from) && to.is(same_to),
        (Entry::Strike { line }, Entry::Strike { line: same }) => line.is(same),
        _ => false,
    }
}

// Whether the entry adds the line.
pub(crate) fn adds_line<I: Identifier, C: Content>(
    entry: &Entry<I, C>,
    name: &LineName<I>,
) -> bool {
    matches!(entry, Entry::Add { line, .. } if line.is(name))
}
