// A week of the loan text in three houses, told action by action.
#![tactic(auto)]

mod days;
mod houses;
mod patches;
mod sheets;
mod words;

use days::Circle;
use lending::shelf::Shelf;
use std::io;

fn main(rt: HostRuntime) -> io::Result<()> {
    let mut ash = Shelf::new();
    let mut bell = Shelf::new();
    let mut church = Shelf::new();
    let mut circle = Circle::new(&rt, &mut ash, &mut bell, &mut church);
    circle.explain()?;
    circle.before()?;
    circle.monday()?;
    circle.tuesday()?;
    let wednesday = circle.wednesday()?;
    circle.thursday()?;
    circle.friday(&wednesday)?;
    circle.saturday()
}
