// Compares the store under test with the plain one.
use crate::plain::{ENTRIES, Plain, SEATS};
use keepers::keeper::Keeper;
use keepers::version::Version;
use rules::stage::Stage;
use store::Store;

// What differs, of which seat or entry.
#[derive(Clone, Copy)]
pub struct Difference {
    pub what: &'static str,
    pub number: u16,
}

// What has to be the same.
fn check(same: bool, what: &'static str, number: u16) -> Result<(), Difference> {
    if same {
        return Ok(());
    }
    Err(Difference { what, number })
}

// A seat's stage, reading list and drafts.
fn compare_seat<K: Keeper>(store: &Store<K>, plain: &Plain, number: u16) -> Result<(), Difference> {
    let Some(seat) = plain.seat(number) else {
        return Ok(());
    };
    check(store.stage(number) == seat.stage, "stage", number)?;
    check(
        store.reads(number) == seat.reads.as_slice(),
        "reads",
        number,
    )?;
    check(
        store.drafts(number) == seat.drafts.as_slice(),
        "drafts",
        number,
    )
}

// All seats; a seat that is none is idle.
fn compare_seats<K: Keeper>(store: &Store<K>, plain: &Plain) -> Result<(), Difference> {
    for number in 0..SEATS {
        compare_seat(store, plain, number)?;
    }
    check(store.stage(SEATS) == Stage::Idle, "stage", SEATS)
}

// The clock, all seats, and how many versions there are.
pub fn compare_state<K: Keeper>(store: &Store<K>, plain: &Plain) -> Result<(), Difference> {
    check(store.clock() == plain.clock, "clock", 0)?;
    compare_seats(store, plain)?;
    let held = store.keeper().held() as usize;
    check(held == plain.versions.len(), "held", 0)?;
    let spare = store.keeper().spare() as usize;
    check(spare == plain.spare(), "spare", 0)
}

pub fn compare_row<K: Keeper>(
    store: &Store<K>,
    plain: &Plain,
    entry: u16,
) -> Result<(), Difference> {
    check(store.row(entry) == plain.row(entry), "row", entry)
}

// What a keeper finds of an entry up to a time, and after another.
fn compare_found<K: Keeper>(
    keeper: &K,
    entry: u16,
    up_to: u32,
    want: Option<Version>,
    time: u32,
    above: Option<u32>,
) -> Result<(), Difference> {
    check(keeper.find(entry, up_to) == want, "version", entry)?;
    check(keeper.after(entry, time) == above, "follower", entry)
}

// So many of the newest versions of an entry. Where those are all, nothing else may be held.
pub fn compare_versions<K: Keeper>(
    keeper: &K,
    plain: &Plain,
    entry: u16,
    depth: u32,
) -> Result<(), Difference> {
    let mut up_to = u32::MAX;
    let mut above = None;
    for _ in 0..depth {
        let Some(held) = plain.newest(entry, up_to) else {
            return compare_found(keeper, entry, up_to, None, 0, above);
        };
        compare_found(keeper, entry, up_to, Some(held), held.time, above)?;
        above = Some(held.time);
        up_to = held.time.saturating_sub(1);
    }
    Ok(())
}

// The version of an entry at any time, and the next one.
pub fn compare_at<K: Keeper>(
    keeper: &K,
    plain: &Plain,
    entry: u16,
    time: u32,
) -> Result<(), Difference> {
    let want = plain.newest(entry, time);
    let above = plain.next_time(entry, time);
    compare_found(keeper, entry, time, want, time, above)
}

// Everything: the state, all rows, and all versions, with those of two entries that no store has.
pub fn compare_all<K: Keeper>(store: &Store<K>, plain: &Plain) -> Result<(), Difference> {
    compare_state(store, plain)?;
    for entry in 0..ENTRIES + 2 {
        compare_row(store, plain, entry)?;
        compare_versions(store.keeper(), plain, entry, u32::MAX)?;
    }
    Ok(())
}
