// Phases and whole runs over one keeper, in memory for it.
use crate::phase::phase;
use crate::shape::Shape;
use crate::tally::Tally;
use crate::whole::try_run;
use anyhow::{Context, Result};
use keepers::version::Version;
use linked::{Linked, Place};
use roll::Roll;

pub fn phase_over_linked(rt: &HostRuntime, shape: &Shape, seed: u64, calls: u32) -> Result<Tally> {
    let mut memory = vec![in rt.alloc(); Place::empty(); shape.places]?;
    let keeper = Linked::new(memory.as_mut_slice());
    phase(rt.alloc(), keeper, shape, seed, calls).context("over the linked keeper")
}

pub fn phase_over_roll(rt: &HostRuntime, shape: &Shape, seed: u64, calls: u32) -> Result<Tally> {
    let mut memory = vec![in rt.alloc(); Version::default(); shape.places]?;
    let keeper = Roll::new(memory.as_mut_slice());
    phase(rt.alloc(), keeper, shape, seed, calls).context("over the roll keeper")
}

pub fn run_over_linked(rt: &HostRuntime, shape: &Shape, seed: u64, calls: u16) -> Result<()> {
    let mut memory = vec![in rt.alloc(); Place::empty(); shape.places]?;
    let keeper = Linked::new(memory.as_mut_slice());
    try_run(rt.alloc(), keeper, shape, seed, calls).context("over the linked keeper")
}

pub fn run_over_roll(rt: &HostRuntime, shape: &Shape, seed: u64, calls: u16) -> Result<()> {
    let mut memory = vec![in rt.alloc(); Version::default(); shape.places]?;
    let keeper = Roll::new(memory.as_mut_slice());
    try_run(rt.alloc(), keeper, shape, seed, calls).context("over the roll keeper")
}
