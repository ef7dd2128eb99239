// A phase: a new store, calls as its shape has them, and an end at which all is settled and collected.
use crate::choice::next_call;
use crate::dice::Dice;
use crate::plain::{Plain, SEATS};
use crate::run::Run;
use crate::shape::Shape;
use crate::stretch::Stretch;
use crate::tally::Tally;
use anyhow::Result;
use cards::refusal::Refusal;
use keepers::keeper::Keeper;
use rules::call::Call;
use rules::stage::Stage;
use std::alloc::Global;

// How many stretches of calls a phase ends with, and how many calls one has at most.
const STRETCHES: u32 = 50;

const LONGEST: u16 = 40;

// The next call to bring a seat to rest: it ends a proof, drops an edit that has no time, and puts the drafts of one that has.
fn finishing(plain: &Plain, seat: u16) -> Option<Call> {
    match plain.stage(seat) {
        Stage::Proof { .. } => Some(Call::End { seat }),
        Stage::Edit { .. } | Stage::Locked { .. } => Some(Call::Drop { seat }),
        Stage::Stamped { .. } if plain.unput(seat) > 0 => Some(Call::Put { seat }),
        _ => None,
    }
}

// Makes such calls until there is none more; a seat has sixteen drafts to put at most.
fn finish_seat<K: Keeper>(run: &mut Run<K>, seat: u16) -> Result<()> {
    for _ in 0..16 {
        if let Some(call) = finishing(&run.plain, seat) {
            run.step(call)?;
        }
    }
    Ok(())
}

// Collects until each entry is declined.
fn collect_all<K: Keeper>(run: &mut Run<K>) -> Result<()> {
    for entry in 0..run.plain.entries() {
        for _ in 0..run.plain.places {
            if run.ask(Call::Collect { entry })?.is_err() {
                break;
            }
        }
    }
    Ok(())
}

// Brings a run to rest.
fn close<K: Keeper>(run: &mut Run<K>) -> Result<()> {
    for seat in 0..SEATS {
        finish_seat(run, seat)?;
    }
    for seat in 0..SEATS {
        run.step(Call::Settle { seat })?;
    }
    collect_all(run)?;
    run.compare_whole()
}

// Makes so many thrown calls.
fn throw_calls<K: Keeper>(
    run: &mut Run<K>,
    dice: &mut Dice,
    shape: &Shape,
    calls: u32,
) -> Result<()> {
    for _ in 0..calls {
        let call = next_call(dice, shape, &run.plain);
        run.step(call)?;
    }
    Ok(())
}

// Hands calls over with so many places for the answers, which are too few.
fn hand_over_short<K: Keeper>(
    alloc: Global,
    run: &mut Run<K>,
    calls: &[Call],
    places: u16,
) -> Result<()> {
    let mut few = vec![in alloc; Err(Refusal::Line); places as usize]?;
    run.hand_over_short(calls, &mut few)
}

// Hands thrown calls over at once, and again with too few places for the answers.
fn throw_stretch<K: Keeper>(
    alloc: Global,
    run: &mut Run<K>,
    dice: &mut Dice,
    shape: &Shape,
) -> Result<()> {
    let calls = dice.below(LONGEST).saturating_add(1);
    let mut stretch = Stretch::thrown(alloc, dice, shape, &mut run.plain, &mut run.tally, calls)?;
    run.hand_over(&mut stretch)?;
    hand_over_short(alloc, run, &stretch.calls, dice.below(calls))
}

fn throw_stretches<K: Keeper>(
    alloc: Global,
    run: &mut Run<K>,
    dice: &mut Dice,
    shape: &Shape,
) -> Result<()> {
    for _ in 0..STRETCHES {
        throw_stretch(alloc, run, dice, shape)?;
    }
    Ok(())
}

// Gives so many times, by edits without drafts.
fn pass_times<K: Keeper>(run: &mut Run<K>, times: u32) -> Result<()> {
    for time in 0..times {
        let seat = (time % u32::from(SEATS)) as u16;
        let calls = [
            Call::Edit { seat },
            Call::Lock { seat },
            Call::Stamp { seat },
            Call::Settle { seat },
        ];
        run.pass(&calls)?;
        if time.is_multiple_of(1000) {
            run.compare_whole()?;
        }
    }
    Ok(())
}

// The times that the shape begins with, so many calls of it, stretches of more, and the end.
fn make_calls<K: Keeper>(
    alloc: Global,
    run: &mut Run<K>,
    shape: &Shape,
    seed: u64,
    calls: u32,
) -> Result<()> {
    let mut dice = Dice::new(seed);
    pass_times(run, shape.times)?;
    throw_calls(run, &mut dice, shape, calls)?;
    throw_stretches(alloc, run, &mut dice, shape)?;
    close(run)
}

// A phase on two new stores, and what it counted.
pub fn phase<K: Keeper + Drop>(
    alloc: Global,
    keeper: K,
    shape: &Shape,
    seed: u64,
    calls: u32,
) -> Result<Tally> {
    let mut run = Run::new(alloc, keeper, shape.sizes, shape.places)?;
    make_calls(alloc, &mut run, shape, seed, calls)?;
    let Run { tally, .. } = run;
    Ok(tally)
}
