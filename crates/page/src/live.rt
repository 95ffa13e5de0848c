use store::row::Row;
use store::store::Store;

// The ranks of the lines that some strike is against.
fn struck_lines<S: Store>(store: &S) -> Row {
    let mut struck = Row::empty();
    for strike in (0..store.counts().strikes).filter_map(|at| store.strike(at)) {
        if let Some(rank) = store.rank(&strike.line) {
            struck.add(rank);
        }
    }
    struck
}

// The ranks of the lines that no strike is against.
pub(crate) fn live_lines<S: Store>(store: &S) -> Row {
    let mut live = Row::below(store.counts().lines);
    live.remove(&struck_lines(store));
    live
}
