//! What no contract says is tried: that a store does what docs/RULES.md and docs/REFUSALS.md say in words. Long runs of calls are made on a
//! store over each keeper and on a plain store, written apart from it, and their answers are compared call by call, mostly with all that
//! the call may change. (The law of these runs is proved, and not tried.) A seed and a number of calls for each phase may be given.
#![tactic(auto)]

mod choice;
mod compare;
mod dice;
mod over;
mod phase;
mod plain;
mod refused;
mod run;
mod seat;
mod served;
mod shape;
mod stretch;
mod tally;
mod whole;

use anyhow::{Context, Result, ensure};
use over::{phase_over_linked, phase_over_roll, run_over_linked, run_over_roll};
use shape::{SHAPES, Shape};
use std::env;
use tally::{Row, Tally, add_row, calls_of, print_short};

// One phase over both keepers. They are told the same calls, so the table is one.
fn try_phase(rt: &HostRuntime, shape: &Shape, seed: u64, calls: u32) -> Result<Tally> {
    let tally = phase_over_linked(rt, shape, seed, calls)?;
    let other = phase_over_roll(rt, shape, seed, calls)?;
    ensure!(tally == other, "the keepers' tables differ");
    Ok(tally)
}

// Its title and its table.
fn print_phase(rt: &HostRuntime, title: &str, tally: &Tally, calls: u64) -> Result<()> {
    println!(rt; "{title}: {calls} calls over the linked keeper, {calls} over the roll keeper")?;
    tally.print(rt)?;
    Ok(())
}

// One phase, tried and printed, and added to the others for both keepers.
fn phase_of(rt: &HostRuntime, shape: &Shape, seed: u64, calls: u32, all: &mut Row) -> Result<()> {
    let tally = try_phase(rt, shape, seed, calls).context(shape.name)?;
    let row = tally.all();
    print_phase(rt, shape.name, &tally, calls_of(&row))?;
    add_row(all, &row);
    add_row(all, &row);
    Ok(())
}

// All phases.
fn try_phases(rt: &HostRuntime, seed: u64, calls: u32) -> Result<()> {
    let mut all = [0; 13];
    let mut seed = seed;
    for shape in &SHAPES {
        phase_of(rt, shape, seed, calls, &mut all)?;
        seed = seed.wrapping_add(1);
    }
    print!(rt; "all phases over both keepers: ")?;
    print_short(rt, &all)?;
    Ok(())
}

// A whole run over each keeper, of calls as the shape has them.
fn try_runs(rt: &HostRuntime, shape: &Shape, seed: u64, calls: u16) -> Result<()> {
    run_over_linked(rt, shape, seed, calls)?;
    run_over_roll(rt, shape, seed, calls)?;
    println!(rt;
        "a whole run: {calls} calls over the linked keeper, {calls} over the roll keeper"
    )?;
    Ok(())
}

// A number that was asked for, or the usual one.
fn number_or(word: Option<String>, usual: u32) -> Result<u32> {
    match word {
        Some(word) => word.parse::<u32>().context("a seed and a number of calls"),
        None => Ok(usual),
    }
}

fn main(rt: HostRuntime) -> Result<()> {
    let mut words = env::args(&rt)?.skip(1);
    let seed = u64::from(number_or(words.next(), 1)?);
    let calls = number_or(words.next(), 40_000)?;
    try_runs(&rt, &SHAPES[1], seed, 2000)?;
    try_phases(&rt, seed, calls)
}
