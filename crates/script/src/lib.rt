// The script tool: a script of commands over a volume, and what it prints.
#![tactic(auto)]

mod answers;
pub mod machine;
mod script_line;
pub mod tool;
