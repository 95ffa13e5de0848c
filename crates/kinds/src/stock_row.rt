// Stock rows: contents `item,copies`.
ghost use Rattle.std.specs.Prelude.{◌≡◌, ◌≤◌, MatchOption};
ghost use Rattle.kinds.specs.StockRows.{RowRange};

use crate::content::Content;
use crate::pairs::PairForm;
use crate::written::Written;
use texts::text::ShortText;

pub const MOST_ITEMS: u32 = 999_999;

pub const MOST_COPIES: u32 = 999;

const FORM: PairForm = PairForm {
    mark: b',',
    low: 1,
    high: MOST_ITEMS,
    least: 0,
    most: MOST_COPIES,
};

// An item of the stock, and how many copies of it there are. Two numbers in a range, as a branch number is, but a type of its own, so
// that they have names.
#[derive(Clone, Copy, PartialEq, Eq, Debug)]
pub struct StockRow {
    item: u32,
    copies: u32,
    ghost item_low: { 1 ≤ item },
    ghost item_high: { item ≤ 999999 },
    ghost copies_high: { copies ≤ 999 },
}

impl StockRow {
    // An item from 1 to 999,999 and 0 to 999 copies; nothing for other numbers.
    pub fn new(item: u32, copies: u32) -> Option<StockRow>
        ensures { MatchOption result (RowRange item copies → ⊥) (λ x. (x.item ≡ item) × (x.copies ≡ copies)) }
    {
        if !(1..=MOST_ITEMS).contains(&item) {
            return None;
        }
        if MOST_COPIES < copies {
            return None;
        }
        Some(StockRow { item, copies })
    }

    pub fn item(&self) -> u32
        ensures { result ≡ self.now.item }
    {
        self.item
    }

    pub fn copies(&self) -> u32
        ensures { result ≡ self.now.copies }
    {
        self.copies
    }
}

impl Written for StockRow {
    ghost use Rattle.kinds.specs.Pairing.{row_decides, row_own};
    ghost use Rattle.kinds.specs.Pairs.{pair_text};
    ghost use Rattle.kinds.specs.StockRows.{IsStockRow, lawful_row};

    // The text `999999,999`.
    const LONGEST: usize = 10;

    ghost LONGEST = { 10 };

    ghost lawful = { lawful_row };

    ghost IsLawful = { IsStockRow };

    ghost text = { λ x. pair_text 44 x.item x.copies };

    ghost told = { row_decides };

    ghost own = { λ x. row_own x.item x.copies x.item_low x.item_high x.copies_high };

    fn read(bytes: &[u8]) -> Option<StockRow> {
        let (item, copies) = FORM.read(bytes)?;
        StockRow::new(item, copies)
    }

    fn write(&self) -> ShortText {
        FORM.write(self.item, self.copies)
    }
}

impl Content for StockRow {
    ghost use Rattle.kinds.specs.Pairing.{rows_kind};

    ghost kind = { rows_kind };
}
