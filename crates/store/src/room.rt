// Whether a store has room for more records.
ghost use Rattle.std.specs.Prelude.{◌+◌, ◌≤◌, ◌↔◌, IsOk, IfErr};
ghost use Rattle.patch.specs.Refusals.{Tabled, apply_gives};

use crate::sizes::Sizes;
use crate::store::Store;
use patch::refusals::{Layer, Reason, Refusal};

// The lists of a store, with the numbers that refusals tell them by.
#[derive(Clone, Copy)]
enum List {
    Lines = 1,
    Links = 2,
    Strikes = 3,
}

fn check_list<I>(list: List, count: usize, more: usize, capacity: usize) -> Result<(), Refusal<I>>
    ensures room { IsOk result ↔ (count + more ≤ capacity) }
    ensures fault { IfErr result (Tabled apply_gives) }
{
    let left = capacity.checked_sub(count);
    if left.is_none_or(|left| left < more) {
        return Err(Refusal::plain(Reason::NoRoom, list as usize, Layer::Store));
    }
    Ok(())
}

// Refuses so many records more at the first list that would pass its capacity.
pub fn check_room<S: Store>(store: &S, more: Sizes) -> Result<(), Refusal<S::Id>>
    ensures fault { IfErr result (Tabled apply_gives) }
{
    let counts = store.counts();
    let capacities = store.capacities();
    // Three calls, no longer than a loop over the lists would be.
    check_list(List::Lines, counts.lines, more.lines, capacities.lines)?;
    check_list(List::Links, counts.links, more.links, capacities.links)?;
    check_list(
        List::Strikes,
        counts.strikes,
        more.strikes,
        capacities.strikes,
    )
}
