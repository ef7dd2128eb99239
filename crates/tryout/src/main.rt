//! Runs the script of the standard input on a new, small store, and writes the answers to its lines.
#![tactic(auto)]

use scratch::run_on_scratch;
use scripts::run::room_for;
use std::io::{self, Print, Read};

// The most bytes that are read. What is left of a cut line is a line.
const MOST_SCRIPT: u64 = 65_536;

// Runs a script, and writes the answers.
fn answer(rt: &HostRuntime, script: &[u8]) -> anyhow::Result<()> {
    let mut memory = vec![in rt.alloc(); 0u8; room_for(script)]?;
    let len = run_on_scratch(script, &mut memory)?;
    Ok(rt.write_all(&memory[..len])?)
}

fn main(rt: HostRuntime) -> anyhow::Result<()> {
    let mut script = Vec::new(rt.alloc());
    rt.reader().take(MOST_SCRIPT).read_to_end(&mut script)?;
    answer(&rt, &script)
}
