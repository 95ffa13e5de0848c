// The loan tool: reads a script from standard input, and prints the answer of each command.
#![tactic(auto)]

ghost use Rattle.std.specs.Prelude.{◌≤◌, length};

use lending::shelf::Shelf;
use page::page::LONGEST_PAGE;
use script::machine::{LONGEST_SCRIPT, Script};
use script::tool::perform;
use std::io::{Read, Write};

// One byte more than the longest script, to tell one that is too long.
const MOST_INPUT: usize = LONGEST_SCRIPT + 1;

// What standard input gives, as far as there is memory for it. An input that fails ends there.
// No `read_to_end`: the tool needs no heap, so that it never lacks memory.
fn read_input<'m>(rt: &HostRuntime, memory: &'m mut [u8]) -> &'m [u8]
    ensures within { length result.now ≤ length memory.old }
{
    let mut input = rt.stdin();
    let mut len = 0;
    while len < memory.len() {
        match input.read(&mut memory[len..]) {
            Ok(0) | Err(_) => break,
            Ok(more) => len += more,
        }
    }
    &memory[..len]
}

fn main(rt: HostRuntime) {
    let mut memory = [0; MOST_INPUT];
    let script = Script::new(read_input(&rt, &mut memory));
    let mut shelf = Shelf::new();
    let mut volume = shelf.volume();
    let mut sheet = [0; LONGEST_PAGE];
    let mut output = rt.stdout();
    for command in script {
        let text = perform(&mut volume, command, &mut sheet);
        if output.write_all(text).is_err() {
            return;
        }
    }
}
