//! What the store costs. With the word `calls` the program times single calls over the linked keeper, as they grow with versions, drafts and
//! reads; with `workloads` it times reads, saves and collects over each keeper, of which the programs of bench/ run the same elsewhere, and
//! print the same lines. Alone it makes a few of each, and prints in place of times how many there were and what they answered.
#![tactic(auto)]

mod calls;
mod saves;
mod timing;
mod workloads;

use calls::calls;
use std::{env, io};
use timing::Pace;
use workloads::workloads;

fn main(rt: HostRuntime) -> io::Result<()> {
    let word = env::args(&rt)?.nth(1);
    match word.as_deref() {
        None => {
            calls(&rt, Pace::SHORT)?;
            workloads(&rt, Pace::SHORT)
        }
        Some("calls") => calls(&rt, Pace::LONG),
        Some("workloads") => workloads(&rt, Pace::LONG),
        Some(_) => println!(rt; "calls, workloads, or no word"),
    }
}
