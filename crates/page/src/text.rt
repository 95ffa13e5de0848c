// The text of a page.
ghost use Rattle.std.specs.Prelude.{◌≤◌};

use crate::listing::{Kind, Listing, Spot};
use kinds::content::Content;
use kinds::identifier::Identifier;
use store::records::Line;
use store::store::Store;
use texts::text::Text;

// The longest line of a page, as `256;plain;256;`, a name of 36 bytes, `;`, a content of 60 bytes and byte 10.
type RowText = Text<112>;

const HEADING: [u8; 26] = *b"block;kind;knot;line;text\n";

fn row_text<I: Identifier, C: Content>(spot: &Spot, kind: Kind, line: &Line<I, C>) -> RowText {
    let mut text = Text::new();
    text.append_number(spot.block);
    text.push(b';');
    text.append(kind.name());
    text.push(b';');
    text.append_number(spot.knot);
    text.push(b';');
    text.append(line.name.write().as_slice());
    text.push(b';');
    text.append(line.content.write().as_slice());
    text.push(b'\n');
    text
}

// The page's line at a spot; nothing where the store has no such line.
fn row_at<S: Store>(store: &S, listing: &Listing, spot: &Spot) -> Option<RowText> {
    let line = store.line(spot.rank)?;
    Some(row_text(spot, listing.kind(spot.block), &line))
}

// How many bytes the page has. A loop: the bound of a chain's `sum` stays open.
pub(crate) fn page_len<S: Store>(store: &S, listing: &Listing) -> usize
    ensures least { 26 ≤ result }
    ensures bound { result ≤ 28698 }
{
    let mut len = HEADING.len();
    for spot in listing.spots() {
        if let Some(row) = row_at(store, listing, spot) {
            len += row.len();
        }
    }
    len
}

// Writes bytes at the front of the memory, as far as it goes, and gives the rest of it.
fn put<'m>(memory: &'m mut [u8], bytes: &[u8]) -> &'m mut [u8] {
    let len = bytes.len().min(memory.len());
    let (front, rest) = memory.split_at_mut(len);
    front.copy_from_slice(&bytes[..len]);
    rest
}

// Writes the page, as far as the memory goes.
pub(crate) fn fill<S: Store>(store: &S, listing: &Listing, memory: &mut [u8]) {
    let mut rest = put(memory, &HEADING);
    for spot in listing.spots() {
        if let Some(row) = row_at(store, listing, spot) {
            rest = put(rest, row.as_slice());
        }
    }
}
