// Runs the scripts of data/, each over an empty volume, and holds what it prints to the file beside it.
#![tactic(auto)]

use lending::shelf::Shelf;
use page::page::LONGEST_PAGE;
use script::machine::Script;
use script::tool::perform;
use std::alloc::{AllocError, Global};
use std::{env, fs};

// All that the loan tool prints for the script.
fn printed(heap: Global, bytes: &[u8]) -> Result<Vec<u8>, AllocError> {
    let mut shelf = Shelf::new();
    let mut volume = shelf.volume();
    let mut sheet = [0; LONGEST_PAGE];
    let mut all = Vec::new(heap);
    for command in Script::new(bytes) {
        let text = perform(&mut volume, command, &mut sheet);
        all.extend_from_slice(text)?;
    }
    Ok(all)
}

// How many bytes two texts have in common at their fronts.
fn common(one: &[u8], other: &[u8]) -> usize {
    one.iter()
        .zip(other)
        .take_while(|(byte, beside)| byte == beside)
        .count()
}

fn run_case(rt: &HostRuntime, name: &str) -> anyhow::Result<()> {
    let heap = rt.alloc();
    let script = fs::read(rt, format!(in heap; "{name}.script")?)?;
    let expected = fs::read(rt, format!(in heap; "{name}.expected")?)?;
    let answer = printed(heap, &script)?;
    let len = answer.len();
    if answer == expected {
        println!(rt; "{name}: {len} bytes, as expected")?;
    } else {
        let at = common(&answer, &expected);
        println!(rt; "{name}: {len} bytes, DIFFERS at byte {at}")?;
    }
    Ok(())
}

fn main(rt: HostRuntime) -> anyhow::Result<()> {
    for name in env::args(&rt)?.skip(1) {
        run_case(&rt, name.as_str())?;
    }
    Ok(())
}
