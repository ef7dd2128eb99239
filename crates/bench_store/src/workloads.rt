// Workloads over each keeper: a proof's reads of one entry, whole saves of one draft, and collects.
use crate::saves::{Wish, fill, filled, save, save_some};
use crate::timing::{Pace, Round};
use fixtures::wide;
use keepers::keeper::Keeper;
use keepers::version::Version;
use linked::{Linked, Place};
use roll::Roll;
use std::io;
use std::time::Instant;
use store::Store;

// How many versions a keeper has places for.
const PLACES: usize = 2048;

// How many reads a pass has.
const LOOKS: usize = 64;

// How many saves a batch has.
const BATCH: usize = 128;

// Over which keeper.
#[derive(Clone, Copy)]
enum Over {
    Linked,
    Roll,
}

#[derive(Clone, Copy)]
enum Work {
    // Reads by a proof that began when the entry had one version.
    ReadOld,
    // Reads by a proof that began when it had all.
    ReadNew,
    // Batches of saves, with the collects between them not timed.
    Save,
    // Saves, each with the collect of the version before.
    SaveCollect,
    // Collects of versions that none needs, until each entry has its newest left.
    Collect,
}

// A workload, with how many entries the store has, and how many versions those that it goes by.
#[derive(Clone, Copy)]
struct Load {
    work: Work,
    entries: u16,
    versions: u32,
}

// What one read is asked. They stand in memory, as a host's would, so that no reading is made once for all.
#[derive(Clone, Copy)]
struct Look {
    seat: u16,
    entry: u16,
}

// Reads all that is asked, and adds the advances up.
fn read_each<K: Keeper>(store: &mut Store<K>, looks: &[Look]) -> u64 {
    let mut sum = 0u64;
    for look in looks {
        if let Ok(card) = store.read(look.seat, look.entry) {
            let advance = card.advance.unwrap_or(0).unsigned_abs();
            sum = sum.wrapping_add(u64::from(advance));
        }
    }
    sum
}

// The same, so often, with the time that it took.
fn read_all<K: Keeper>(
    rt: &HostRuntime,
    store: &mut Store<K>,
    looks: &[Look],
    passes: u64,
) -> io::Result<Round> {
    let mut sum = 0u64;
    let start = Instant::now(rt)?;
    for _ in 0..passes {
        sum = sum.wrapping_add(read_each(store, looks));
    }
    Round::of(passes.wrapping_mul(looks.len() as u64), sum).since(rt, start)
}

// Twice as many passes, until they take long enough.
fn read_enough<K: Keeper>(
    rt: &HostRuntime,
    pace: Pace,
    store: &mut Store<K>,
    look: Look,
) -> io::Result<Round> {
    let looks = vec![in rt.alloc(); look; LOOKS]?;
    let mut passes = 1u64;
    for _ in 0..30 {
        let round = read_all(rt, store, &looks, passes)?;
        if round.nanos >= pace.least {
            return Ok(round);
        }
        passes = passes.wrapping_mul(2);
    }
    read_all(rt, store, &looks, passes)
}

// Reads of the middle entry, by seat 0, whose proof began when the entry had one version, or by seat 1, whose began after all.
fn reading<K: Keeper>(
    rt: &HostRuntime,
    pace: Pace,
    store: &mut Store<K>,
    load: Load,
    seat: u16,
) -> io::Result<Round> {
    let entry = load.entries / 2;
    let _ = store.proof(0);
    save_some(store, entry, 2, load.versions.saturating_sub(1));
    let _ = store.proof(1);
    read_enough(rt, pace, store, Look { seat, entry })
}

// Saves all, and adds up the times that were given.
fn save_all<K: Keeper>(store: &mut Store<K>, wishes: &[Wish]) -> u64 {
    let mut sum = 0u64;
    for wish in wishes {
        if let Ok(time) = save(store, *wish) {
            sum = sum.wrapping_add(u64::from(time));
        }
    }
    sum
}

// Saves all, and collects the version before after each.
fn save_and_collect_all<K: Keeper>(store: &mut Store<K>, wishes: &[Wish]) -> u64 {
    let mut sum = 0u64;
    for wish in wishes {
        if let Ok(time) = save(store, *wish) {
            sum = sum.wrapping_add(u64::from(time));
        }
        let _ = store.collect(wish.entry);
    }
    sum
}

// Collects what is left of a batch.
fn collect_after<K: Keeper>(store: &mut Store<K>, wishes: &[Wish]) {
    for wish in wishes {
        let _ = store.collect(wish.entry);
    }
}

// A batch of saves, and then collects that are not timed.
fn batch<K: Keeper>(
    rt: &HostRuntime,
    store: &mut Store<K>,
    wishes: &[Wish],
    collecting: bool,
) -> io::Result<Round> {
    let start = Instant::now(rt)?;
    let sum = if collecting {
        save_and_collect_all(store, wishes)
    } else {
        save_all(store, wishes)
    };
    let round = Round::of(wishes.len() as u64, sum).since(rt, start)?;
    collect_after(store, wishes);
    Ok(round)
}

// Batches of saves of the middle entry.
fn saving<K: Keeper>(
    rt: &HostRuntime,
    pace: Pace,
    store: &mut Store<K>,
    load: Load,
    collecting: bool,
) -> io::Result<Round> {
    let wish = Wish {
        seat: 4,
        entry: load.entries / 2,
        card: wide(620),
    };
    let wishes = vec![in rt.alloc(); wish; BATCH]?;
    let mut all = Round::NONE;
    for _ in 0..pace.batches {
        all = all.and(batch(rt, store, &wishes, collecting)?);
    }
    Ok(all)
}

// Collects each entry once, and adds up the times that are answered.
fn collect_each<K: Keeper>(store: &mut Store<K>, entries: &[u16]) -> Round {
    let mut round = Round::NONE;
    for entry in entries {
        if let Ok(time) = store.collect(*entry) {
            round = round.with(u64::from(time));
        }
    }
    round
}

// The same, so often.
fn collect_all<K: Keeper>(store: &mut Store<K>, entries: &[u16], times: u32) -> Round {
    let mut round = Round::NONE;
    for _ in 0..times {
        round = round.and(collect_each(store, entries));
    }
    round
}

// All entries of a store, in memory as a host's would be.
fn numbers(rt: &HostRuntime, entries: u16) -> io::Result<Vec<u16>> {
    let mut numbers = Vec::new(rt.alloc());
    for entry in 0..entries {
        numbers.push(entry)?;
    }
    Ok(numbers)
}

// Batches of collects, until they have taken long enough. Between them the entries get their versions again.
fn collecting<K: Keeper>(
    rt: &HostRuntime,
    pace: Pace,
    store: &mut Store<K>,
    load: Load,
) -> io::Result<Round> {
    let entries = numbers(rt, load.entries)?;
    let more = load.versions.saturating_sub(1);
    let mut all = Round::NONE;
    for _ in 0..pace.batches {
        if all.operations > 0 && all.nanos >= pace.least {
            return Ok(all);
        }
        fill(store, 0, load.entries, more);
        let start = Instant::now(rt)?;
        all = all.and(collect_all(store, &entries, more).since(rt, start)?);
    }
    Ok(all)
}

// A round of a workload over an empty keeper, on a new store, since its clock goes up to a million.
fn round<K: Keeper + Drop>(
    rt: &HostRuntime,
    pace: Pace,
    keeper: K,
    load: Load,
) -> io::Result<Round> {
    let mut store = filled(keeper, load.entries);
    match load.work {
        Work::ReadOld => reading(rt, pace, &mut store, load, 0),
        Work::ReadNew => reading(rt, pace, &mut store, load, 1),
        Work::Save => saving(rt, pace, &mut store, load, false),
        Work::SaveCollect => saving(rt, pace, &mut store, load, true),
        Work::Collect => collecting(rt, pace, &mut store, load),
    }
}

// A round over one of the keepers.
fn round_over(rt: &HostRuntime, pace: Pace, over: Over, load: Load) -> io::Result<Round> {
    match over {
        Over::Linked => {
            let mut memory = vec![in rt.alloc(); Place::empty(); PLACES]?;
            round(rt, pace, Linked::new(memory.as_mut_slice()), load)
        }
        Over::Roll => {
            let mut memory = vec![in rt.alloc(); Version::default(); PLACES]?;
            round(rt, pace, Roll::new(memory.as_mut_slice()), load)
        }
    }
}

// The line of a workload: who ran it, what it was, with how many entries and versions, the operations, the sum, and the nanoseconds.
fn tell(rt: &HostRuntime, pace: Pace, over: Over, load: Load, best: Round) -> io::Result<()> {
    let who = match over {
        Over::Linked => "store-linked",
        Over::Roll => "store-roll",
    };
    let what = match load.work {
        Work::ReadOld => "read-old",
        Work::ReadNew => "read-new",
        Work::Save => "save",
        Work::SaveCollect => "save-collect",
        Work::Collect => "collect",
    };
    let Load {
        entries,
        versions,
        ..
    } = load;
    let Round {
        nanos,
        operations,
        sum,
    } = best;
    if pace.timed {
        return println!(rt; "{who} {what} {entries} {versions} {operations} {sum} {nanos}");
    }
    println!(rt; "{who} {what} {entries} {versions} {operations} {sum}")
}

// The best round of a workload.
fn best(
    rt: &HostRuntime,
    pace: Pace,
    over: Over,
    work: Work,
    entries: u16,
    versions: u32,
) -> io::Result<()> {
    let load = Load {
        work,
        entries,
        versions,
    };
    let mut best = round_over(rt, pace, over, load)?;
    for _ in 1..pace.rounds {
        best = best.or_better(round_over(rt, pace, over, load)?);
    }
    tell(rt, pace, over, load, best)
}

// The reads and the saves in a store of so many entries.
fn served(rt: &HostRuntime, pace: Pace, over: Over, entries: u16) -> io::Result<()> {
    for versions in [1, 10, 1000] {
        best(rt, pace, over, Work::ReadOld, entries, versions)?;
        best(rt, pace, over, Work::ReadNew, entries, versions)?;
    }
    best(rt, pace, over, Work::Save, entries, 1)?;
    best(rt, pace, over, Work::SaveCollect, entries, 1)
}

// Every workload over each keeper.
pub fn workloads(rt: &HostRuntime, pace: Pace) -> io::Result<()> {
    for over in [Over::Linked, Over::Roll] {
        served(rt, pace, over, 1)?;
        served(rt, pace, over, 1024)?;
        best(rt, pace, over, Work::Collect, 16, 10)?;
        best(rt, pace, over, Work::Collect, 1, 1000)?;
    }
    Ok(())
}
