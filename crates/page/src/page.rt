ghost use Rattle.std.specs.Prelude.{◌≡◌, ◌<◌, ◌≤◌, length, drop, IfOk, IfErr, OnErr};
ghost use Rattle.patch.specs.Refusals.{Tabled, page_gives};

use crate::listing::list;
use crate::live::live_lines;
use crate::text::{fill, page_len};
use patch::refusals::{Layer, Reason, Refusal};
use store::store::Store;

// No page is longer: a first line of 26 bytes, and 256 lines of at most 112.
pub const LONGEST_PAGE: usize = 28_698;

// The page of what a store holds, at the front of the memory; its length. Memory that is too short is left as it was.
pub fn write_page<S: Store>(store: &S, memory: &mut [u8]) -> Result<usize, Refusal<S::Id>>
    ensures bound { IfOk result (λ n. n ≤ 28698) }
    ensures fits { IfOk result (λ n. n ≤ length memory.old) }
    ensures rest { IfOk result (λ n. drop n memory.new ≡ drop n memory.old) }
    ensures fault { IfErr result (Tabled page_gives) }
    ensures short { IfErr result (λ f. length memory.old < f.place) }
    ensures same { OnErr result (memory.new ≡ memory.old) }
{
    let listing = list(&store.rows(), &live_lines(store));
    let needed = page_len(store, &listing);
    if memory.len() < needed {
        return Err(Refusal::plain(Reason::ShortMemory, needed, Layer::Page));
    }
    fill(store, &listing, &mut memory[..needed]);
    Ok(needed)
}
