// Single calls over the linked keeper, and how they grow: each list of calls is made again and again, and gets a line.
use crate::saves::{fill, filled};
use crate::timing::{Pace, since};
use cards::entry::ENTRIES;
use fixtures::{letters, wide};
use keepers::keeper::Keeper;
use keepers::memory::MOST_PLACES;
use linked::{Linked, Place};
use rules::call::Call;
use std::io;
use std::mem::size_of;
use std::time::Instant;
use store::Store;

// Makes the calls once, and counts those that are granted.
fn granted_once<K: Keeper>(store: &mut Store<K>, calls: &[Call]) -> u64 {
    let mut count = 0u64;
    for call in calls {
        if store.apply(*call).is_ok() {
            count = count.wrapping_add(1);
        }
    }
    count
}

// Makes the calls so often, and counts all that are granted.
fn granted<K: Keeper>(store: &mut Store<K>, calls: &[Call], lists: u32) -> u64 {
    let mut count = 0u64;
    for _ in 0..lists {
        count = count.wrapping_add(granted_once(store, calls));
    }
    count
}

// Makes the calls again and again, and prints how many were granted, or how long all of them took once.
fn repeat<K: Keeper>(
    rt: &HostRuntime,
    pace: Pace,
    store: &mut Store<K>,
    what: &str,
    calls: &[Call],
) -> io::Result<()> {
    let start = Instant::now(rt)?;
    let count = granted(store, calls, pace.lists);
    let nanos = since(rt, start)?;
    if !pace.timed {
        return println!(rt; "{what}: {count} granted");
    }
    let each = nanos.checked_div(u64::from(pace.lists)).unwrap_or(0);
    println!(rt; "{what}: {each} ns")
}

// The calls that begin and give up.
fn openings<K: Keeper>(rt: &HostRuntime, pace: Pace, store: &mut Store<K>) -> io::Result<()> {
    let seat = 1;
    let proof = [Call::Proof { seat }, Call::End { seat }];
    repeat(rt, pace, store, "proof, end", &proof)?;
    let edit = [Call::Edit { seat }, Call::Drop { seat }];
    repeat(rt, pace, store, "edit, drop", &edit)
}

// What a proof and an edit ask of entry 0.
fn askings<K: Keeper>(rt: &HostRuntime, pace: Pace, store: &mut Store<K>) -> io::Result<()> {
    let seat = 3;
    let entry = 0;
    let card = wide(620);
    let _ = store.proof(2);
    let read = [Call::Read { seat: 2, entry }];
    repeat(rt, pace, store, "a proof's read", &read)?;
    let _ = store.end(2);
    let _ = store.edit(seat);
    let read = [Call::Read { seat, entry }];
    repeat(rt, pace, store, "an edit's read", &read)?;
    let write = [Call::Write { seat, entry, card }];
    repeat(rt, pace, store, "write", &write)?;
    let _ = store.drop_edit(seat);
    Ok(())
}

// An edit of seat 0 that drafts so many entries, and then makes the calls that end it.
fn writes(rt: &HostRuntime, drafts: u16, ends: &[Call]) -> io::Result<Vec<Call>> {
    let seat = 0;
    let card = wide(600);
    let mut calls = vec![in rt.alloc(); Call::Edit { seat }; 1]?;
    for entry in 0..drafts {
        calls.push(Call::Write { seat, entry, card })?;
    }
    calls.extend_from_slice(ends)?;
    Ok(calls)
}

// The same of one that reads so many entries.
fn reads(rt: &HostRuntime, reads: u16, ends: &[Call]) -> io::Result<Vec<Call>> {
    let seat = 0;
    let mut calls = vec![in rt.alloc(); Call::Edit { seat }; 1]?;
    for entry in 0..reads {
        calls.push(Call::Read { seat, entry })?;
    }
    calls.extend_from_slice(ends)?;
    Ok(calls)
}

// How a lock grows with the drafts.
fn lockings<K: Keeper>(rt: &HostRuntime, pace: Pace, store: &mut Store<K>) -> io::Result<()> {
    let seat = 0;
    for drafts in [1, 4, 16] {
        println!(rt; "drafts: {drafts}")?;
        let calls = writes(rt, drafts, &[Call::Drop { seat }])?;
        repeat(rt, pace, store, "edit, the writes, drop", &calls)?;
        let calls = writes(rt, drafts, &[Call::Lock { seat }, Call::Drop { seat }])?;
        repeat(rt, pace, store, "edit, the writes, lock, drop", &calls)?;
    }
    Ok(())
}

// How a stamp grows with the reads.
fn stampings<K: Keeper>(rt: &HostRuntime, pace: Pace, store: &mut Store<K>) -> io::Result<()> {
    let seat = 0;
    for count in [1, 8, 32] {
        println!(rt; "reads: {count}")?;
        let calls = reads(rt, count, &[Call::Lock { seat }, Call::Drop { seat }])?;
        repeat(rt, pace, store, "edit, the reads, lock, drop", &calls)?;
        let ends = [
            Call::Lock { seat },
            Call::Stamp { seat },
            Call::Settle { seat },
        ];
        let calls = reads(rt, count, &ends)?;
        repeat(
            rt,
            pace,
            store,
            "edit, the reads, lock, stamp, settle",
            &calls,
        )?;
    }
    Ok(())
}

// The short calls over a keeper of few versions.
fn few(rt: &HostRuntime, pace: Pace, memory: &mut [Place]) -> io::Result<()> {
    println!(rt; "4 entries, 4 versions")?;
    let mut store = filled(Linked::new(memory), 4);
    openings(rt, pace, &mut store)?;
    askings(rt, pace, &mut store)
}

// The same over a keeper of many.
fn many(rt: &HostRuntime, pace: Pace, memory: &mut [Place]) -> io::Result<()> {
    let versions = pace.versions;
    println!(rt; "1024 entries, {versions} versions of each but the first")?;
    let mut store = filled(Linked::new(memory), 1024);
    fill(&mut store, 1, 1024, versions.saturating_sub(1));
    openings(rt, pace, &mut store)?;
    askings(rt, pace, &mut store)?;
    let held = store.keeper().held();
    println!(rt; "its keeper holds {held} versions")
}

// All of them.
pub fn calls(rt: &HostRuntime, pace: Pace) -> io::Result<()> {
    let keeper = size_of::<Linked>();
    let store = size_of::<Store<Linked>>();
    println!(rt; "a store over a linked keeper has {store} bytes, {keeper} of them the keeper's")?;
    let mut memory = vec![in rt.alloc(); Place::empty(); MOST_PLACES]?;
    let memory = memory.as_mut_slice();
    few(rt, pace, memory)?;
    many(rt, pace, memory)?;
    let mut store = Store::new(Linked::new(memory), letters(ENTRIES));
    lockings(rt, pace, &mut store)?;
    stampings(rt, pace, &mut store)
}
