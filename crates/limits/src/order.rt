// Tables of texts in ascending order. Every text of a table is compared with every one, itself among them.
use crate::report::Report;
use crate::rows::Quoted;
use std::cmp::Ordering;
use std::io;

fn sign(order: Option<Ordering>) -> &'static str {
    match order {
        Some(Ordering::Less) => "<",
        Some(Ordering::Equal) => "=",
        Some(Ordering::Greater) => ">",
        None => "?",
    }
}

// The text at a place of the table against all: greater than those before it, less than those after it.
fn compare_one<C>(
    report: &Report,
    table: &[&[u8]],
    at: usize,
    text: &[u8],
    compare: &C,
) -> io::Result<()>
where
    C: Fn(&[u8], &[u8]) -> Option<Ordering>,
    requires { C.IsAlwaysCallable compare.now }
{
    let mut holds = true;
    print!(report.rt; " ")?;
    for (place, other) in table.iter().enumerate() {
        let order = compare(text, other);
        print!(report.rt; " {}", sign(order))?;
        holds &= order == Some(at.cmp(&place));
    }
    println!(report.rt; "  {}", Quoted(text))?;
    report.expect("compare", holds)
}

// The order of the values that the texts have; a text that is unlawful has none.
pub(crate) fn compare_all<V: Drop, R, C>(
    report: &Report,
    table: &[&[u8]],
    read: R,
    compare: C,
) -> io::Result<()>
where
    R: Fn(&[u8]) -> Option<V>,
    C: Fn(&V, &V) -> Ordering,
    requires read { R.IsAlwaysCallable read }
    requires compare { C.IsAlwaysCallable compare }
{
    let compare_texts = |one: &[u8], other: &[u8]| Some(compare(&read(one)?, &read(other)?));
    for (at, text) in table.iter().enumerate() {
        compare_one(report, table, at, text, &compare_texts)?;
    }
    Ok(())
}
