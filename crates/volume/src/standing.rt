// What stands, worked out from the store's lists: a patch has at least one entry, so while it stands a line belongs to it
// or it owns a link or a strike.
use store::keys::Owned;
use store::store::Store;

pub(crate) fn stands<S: Store>(store: &S, patch: &S::Id) -> bool {
    let counts = store.counts();
    let has_line = |rank| { store.line(rank).is_some_and(|line| line.is_owned_by(patch)) };
    let owns_link = |rank| { store.link(rank).is_some_and(|link| link.is_owned_by(patch)) };
    let owns_strike = |rank| {
        store
            .strike(rank)
            .is_some_and(|strike| strike.is_owned_by(patch))
    };
    (0..counts.lines).any(has_line)
        || (0..counts.links).any(owns_link)
        || (0..counts.strikes).any(owns_strike)
}
