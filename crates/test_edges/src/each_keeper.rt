// Both keepers at their edges. Each test is written once, over any keeper.
use cards::card::Card;
use cards::draft::Draft;
use cards::refusal::Refusal;
use fixtures::kerned;
use keepers::keeper::Keeper;
use keepers::memory::{MOST_PLACES, check_memory};
use keepers::search::last_match;
use keepers::version::Version;
use linked::{Linked, Place};
use roll::Roll;
use std::process::Abort;
use std::test::Fail;

fn version(entry: u16, time: u32) -> Version {
    Version {
        entry,
        time,
        card: kerned(-40),
    }
}

// The time of the newest version up to a time, where there is one.
fn found<K: Keeper>(keeper: &K, entry: u16, up_to: u32) -> Option<u32> {
    keeper.find(entry, up_to).map(|version| version.time)
}

fn no_place<K: Keeper>(rt: &impl Abort, keeper: &mut K) {
    assert_eq!(rt; keeper.held(), 0);
    assert_eq!(rt; keeper.spare(), 0);
    assert_eq!(rt; keeper.add(version(1024, 1)), Err(Refusal::Entry));
    assert_eq!(rt; keeper.add(version(1023, 0)), Err(Refusal::Full));
    assert_eq!(rt; found(keeper, 0, u32::MAX), None);
    assert_eq!(rt; keeper.after(0, 0), None);
    assert!(rt; !keeper.remove(0, 7));
}

fn one_place<K: Keeper>(rt: &impl Abort, keeper: &mut K) {
    assert_eq!(rt; keeper.add(version(1024, 1)), Err(Refusal::Entry));
    assert_eq!(rt; keeper.add(version(u16::MAX, 1)), Err(Refusal::Entry));
    assert_eq!(rt; keeper.add(version(1023, 0)), Err(Refusal::Order));
    assert_eq!(rt; keeper.add(version(1023, u32::MAX)), Ok(()));
    assert_eq!(rt; keeper.add(version(1023, u32::MAX)), Err(Refusal::Full));
    assert_eq!(rt; found(keeper, 1023, u32::MAX), Some(u32::MAX));
    assert_eq!(rt; found(keeper, 1023, u32::MAX - 1), None);
    assert_eq!(rt; keeper.after(1023, 0), Some(u32::MAX));
    assert_eq!(rt; keeper.after(1023, u32::MAX), None);
    assert_eq!(rt; keeper.after(1024, 0), None);
    assert!(rt; !keeper.remove(1023, u32::MAX - 1));
    assert!(rt; !keeper.remove(1024, u32::MAX));
    assert!(rt; keeper.remove(1023, u32::MAX));
    assert_eq!(rt; keeper.held(), 0);
    assert_eq!(rt; keeper.add(version(0, 1)), Ok(()));
}

// Fills five places with one entry, takes the middle one out, and fills up again.
fn middle<K: Keeper>(rt: &impl Abort, keeper: &mut K) {
    for time in 1..6 {
        assert_eq!(rt; keeper.add(version(7, time)), Ok(()));
    }
    assert_eq!(rt; keeper.add(version(7, 6)), Err(Refusal::Full));
    assert!(rt; keeper.remove(7, 3));
    assert!(rt; !keeper.remove(7, 3));
    assert_eq!(rt; found(keeper, 7, 3), Some(2));
    assert_eq!(rt; keeper.after(7, 2), Some(4));
    assert_eq!(rt; keeper.add(version(7, 5)), Err(Refusal::Order));
    assert_eq!(rt; keeper.add(version(8, 1)), Ok(()));
    assert_eq!(rt; keeper.add(version(9, 1)), Err(Refusal::Full));
    assert_eq!(rt; keeper.held(), 5);
}

// Goes on from there: the ends of the chain are taken out, and their places serve again until all are full.
fn ends<K: Keeper>(rt: &impl Abort, keeper: &mut K) {
    assert!(rt; keeper.remove(7, 5));
    assert!(rt; keeper.remove(7, 1));
    assert_eq!(rt; found(keeper, 7, u32::MAX), Some(4));
    assert_eq!(rt; keeper.after(7, 0), Some(2));
    assert_eq!(rt; keeper.add(version(7, 5)), Ok(()));
    assert_eq!(rt; keeper.add(version(1023, 1)), Ok(()));
    assert_eq!(rt; keeper.add(version(9, 1)), Err(Refusal::Full));
    assert_eq!(rt; found(keeper, 8, 1), Some(1));
    assert_eq!(rt; keeper.spare(), 0);
}

// What memory held before is of no meaning: that of the roll is full of versions.
#[test]
fn without_a_place(rt: HostRuntime) {
    no_place(&rt, &mut Linked::new(&mut []));
    no_place(&rt, &mut Roll::new(&mut []));
}

#[test]
fn with_one_place(rt: HostRuntime) {
    one_place(&rt, &mut Linked::new(&mut [Place::empty()]));
    one_place(&rt, &mut Roll::new(&mut [version(0, 7)]));
}

#[test]
fn out_of_the_middle(rt: HostRuntime) {
    let mut memory = [Place::empty(); 5];
    let mut linked = Linked::new(&mut memory);
    middle(&rt, &mut linked);
    ends(&rt, &mut linked);
    let mut memory = [version(0, 7); 5];
    let mut roll = Roll::new(&mut memory);
    middle(&rt, &mut roll);
    ends(&rt, &mut roll);
}

// Memory serves again when the keeper over it is gone.
#[test]
fn memory_lent_twice(rt: HostRuntime) {
    let mut memory = [Place::empty(); 5];
    middle(&rt, &mut Linked::new(&mut memory));
    middle(&rt, &mut Linked::new(&mut memory));
    let mut memory = [version(0, 7); 5];
    middle(&rt, &mut Roll::new(&mut memory));
    middle(&rt, &mut Roll::new(&mut memory));
}

#[test]
fn more_memory_than_is_used(rt: HostRuntime) -> Result<(), Fail> {
    assert_eq!(rt; check_memory(65536), Ok(()));
    assert_eq!(rt; check_memory(65537), Err(Refusal::Sizes));
    let mut memory = vec![in rt.alloc(); Place::empty(); MOST_PLACES + 1]?;
    let linked = Linked::new(memory.as_mut_slice());
    assert_eq!(rt; linked.spare(), 65536);
    assert_eq!(rt; linked.into_memory().len(), 65537);
    let mut memory = vec![in rt.alloc(); version(0, 7); MOST_PLACES + 1]?;
    let roll = Roll::new(memory.as_mut_slice());
    assert_eq!(rt; roll.spare(), 65536);
    assert_eq!(rt; roll.into_memory().len(), 65537);
    Ok(())
}

#[test]
fn the_last_match(rt: HostRuntime) {
    let numbers: [u16; 4] = [3, 5, 3, 9];
    assert_eq!(rt; last_match(&numbers, 3, 0), Some(2));
    assert_eq!(rt; last_match(&numbers, 4, u32::MAX), None);
    let drafts = [
        Draft {
            entry: 1,
            card: Card::blank(),
        },
        Draft {
            entry: 2,
            card: Card::blank(),
        },
    ];
    assert_eq!(rt; last_match(&drafts, 1, 0), Some(0));
    assert_eq!(rt; last_match(&drafts, 0, 0), None);
    let versions = [version(4, 1), version(4, 3), version(5, 2)];
    assert_eq!(rt; last_match(&versions, 4, 3), Some(1));
    assert_eq!(rt; last_match(&versions, 4, 2), Some(0));
    assert_eq!(rt; last_match(&versions, 4, 0), None);
}
