// The tests of unapply.
ghost use Rattle.std.specs.Prelude.{IfErr};
ghost use Rattle.patch.specs.Refusals.{Tabled, unapply_gives};

use crate::faults::refusal;
use crate::standing::stands;
use patch::refusals::{Cause, Reason, Refusal};
use store::store::Store;

// The least of the other patches whose links and strikes name a line of this one.
fn least_naming<S: Store>(store: &S, patch: &S::Id) -> Option<S::Id> {
    let counts = store.counts();
    let least_with_link = (0..counts.links)
        .filter_map(|rank| {
            let link = store.link(rank)?;
            let is_named = link.from.belongs_to(patch) || link.to.belongs_to(patch);
            (is_named && link.owner != *patch).then_some(link.owner)
        })
        .min();
    let least_with_strike = (0..counts.strikes)
        .filter_map(|rank| {
            let strike = store.strike(rank)?;
            let is_named = strike.line.belongs_to(patch);
            (is_named && strike.owner != *patch).then_some(strike.owner)
        })
        .min();
    least_with_link.into_iter().chain(least_with_strike).min()
}

// Whether the patch can be unapplied: it stands, and no other standing patch names a line of it.
pub(crate) fn check_unapply<S: Store>(store: &S, patch: &S::Id) -> Result<(), Refusal<S::Id>>
    ensures fault { IfErr result (Tabled unapply_gives) }
{
    if !stands(store, patch) {
        return Err(refusal(Reason::DoesNotStand, 0, Cause::Patch(*patch)));
    }
    match least_naming(store, patch) {
        Some(other) => Err(refusal(Reason::IsNamed, 0, Cause::Patch(other))),
        None => Ok(()),
    }
}
