// A store at its edges. Each test is written once, over any keeper.
use cards::card::Card;
use cards::refusal::Refusal;
use fixtures::{letters, wide};
use keepers::keeper::Keeper;
use keepers::version::Version;
use linked::{Linked, Place};
use roll::Roll;
use rules::answer::Answer;
use rules::call::Call;
use std::process::Abort;
use store::run::run;
use store::{Sizes, Store, check};

// Seat 15 is served, seat 16 is not.
fn last_seat<K: Keeper>(rt: &impl Abort, store: &mut Store<K>) {
    assert_eq!(rt; store.edit(15), Ok(0));
    assert_eq!(rt; store.edit(16), Err(Refusal::Seat));
    assert_eq!(rt; store.edit(u16::MAX), Err(Refusal::Seat));
    assert_eq!(rt; store.drop_edit(15), Ok(()));
}

// The sixteenth draft is written and written again, the seventeenth is not.
fn last_draft<K: Keeper>(rt: &impl Abort, store: &mut Store<K>) {
    assert_eq!(rt; store.edit(0), Ok(0));
    for entry in 0..16 {
        assert_eq!(rt; store.write(0, entry, wide(1)), Ok(()));
    }
    assert_eq!(rt; store.write(0, 15, wide(2)), Ok(()));
    assert_eq!(rt; store.write(0, 16, wide(1)), Err(Refusal::List));
    assert_eq!(rt; store.read(0, 15), Ok(wide(2)));
    assert_eq!(rt; store.lock(0), Ok(16));
    assert_eq!(rt; store.drop_edit(0), Ok(()));
}

// The thirty-second read is granted and granted again, the thirty-third is not.
fn last_read<K: Keeper>(rt: &impl Abort, store: &mut Store<K>) {
    assert_eq!(rt; store.edit(1), Ok(0));
    for entry in 0..32 {
        assert_eq!(rt; store.read(1, entry), Ok(Card::blank()));
    }
    assert_eq!(rt; store.read(1, 31), Ok(Card::blank()));
    assert_eq!(rt; store.read(1, 32), Err(Refusal::List));
    assert_eq!(rt; store.drop_edit(1), Ok(()));
}

// What a store without entries still does.
fn no_entries<K: Keeper>(rt: &impl Abort, store: &mut Store<K>) {
    assert_eq!(rt; store.edit(0), Ok(0));
    assert_eq!(rt; store.read(0, 0), Err(Refusal::Entry));
    assert_eq!(rt; store.write(0, 0, wide(1)), Err(Refusal::Entry));
    assert_eq!(rt; store.collect(0), Err(Refusal::Entry));
    assert_eq!(rt; store.lock(0), Ok(0));
    assert_eq!(rt; store.stamp(0), Ok(1));
    assert_eq!(rt; store.put(0), Err(Refusal::Stage));
    assert_eq!(rt; store.settle(0), Ok(1));
}

// Calls made by `run`: where the answers have a place too few none is made, and the keeper comes back.
fn by_run<K: Keeper + Drop>(rt: &impl Abort, keeper: K) {
    let calls = [
        Call::Edit { seat: 3 },
        Call::Write {
            seat: 3,
            entry: 0,
            card: wide(620),
        },
        Call::Lock { seat: 3 },
        Call::Stamp { seat: 3 },
        Call::Put { seat: 3 },
    ];
    let mut few = [Err(Refusal::Line); 4];
    let (store, result) = run(keeper, letters(1), &calls, &mut few);
    assert_eq!(rt; result, Err(Refusal::Short));
    assert_eq!(rt; few[0], Err(Refusal::Line));
    let mut answers = [Err(Refusal::Line); 6];
    let (store, result) = run(store.into_keeper(), letters(1), &calls, &mut answers);
    assert_eq!(rt; result, Ok(()));
    assert_eq!(rt; answers[1], Ok(Answer::Done));
    assert_eq!(rt; answers[4], Ok(Answer::Number(0)));
    assert_eq!(rt; answers[5], Err(Refusal::Line));
    assert_eq!(rt; store.into_keeper().held(), 1);
}

// The last seat, draft and read, of a store with a place for each draft.
fn lasts<K: Keeper + Drop>(rt: &impl Abort, mut store: Store<K>) {
    last_seat(rt, &mut store);
    last_draft(rt, &mut store);
    last_read(rt, &mut store);
}

#[test]
fn a_store_over_a_linked_keeper(rt: HostRuntime) {
    let mut memory = [Place::empty(); 16];
    lasts(&rt, Store::new(Linked::new(&mut memory), letters(40)));
    let mut memory = [Place::empty()];
    no_entries(
        &rt,
        &mut Store::new(Linked::new(&mut memory), letters(1025)),
    );
    by_run(&rt, Linked::new(&mut memory));
}

#[test]
fn a_store_over_a_roll_keeper(rt: HostRuntime) {
    let mut memory = [Version::default(); 16];
    lasts(&rt, Store::new(Roll::new(&mut memory), letters(40)));
    let mut memory = [Version::default()];
    no_entries(&rt, &mut Store::new(Roll::new(&mut memory), letters(0)));
    by_run(&rt, Roll::new(&mut memory));
}

// A store over a keeper that holds a version has no entries.
fn over_held<K: Keeper + Drop>(rt: &impl Abort, keeper: K) {
    let calls = [
        Call::Edit { seat: 0 },
        Call::Write {
            seat: 0,
            entry: 0,
            card: wide(1),
        },
        Call::Lock { seat: 0 },
        Call::Stamp { seat: 0 },
        Call::Put { seat: 0 },
    ];
    let mut answers = [Ok(Answer::Done); 5];
    let (store, _) = run(keeper, letters(1), &calls, &mut answers);
    let mut again = Store::new(store.into_keeper(), letters(1));
    assert_eq!(rt; again.edit(0), Ok(0));
    assert_eq!(rt; again.write(0, 0, wide(1)), Err(Refusal::Entry));
}

#[test]
fn over_a_keeper_that_holds(rt: HostRuntime) {
    over_held(&rt, Linked::new(&mut [Place::empty(); 2]));
    over_held(&rt, Roll::new(&mut [Version::default(); 2]));
}

#[test]
fn which_sizes_are_let_through(rt: HostRuntime) {
    let most = Sizes {
        letters: 1000,
        marks: 20,
        pairs: 4,
    };
    let over = Sizes {
        letters: usize::MAX,
        marks: 1,
        pairs: usize::MAX,
    };
    assert_eq!(rt; check(letters(0), 1), Err(Refusal::Sizes));
    assert_eq!(rt; check(letters(1), 0), Ok(()));
    assert_eq!(rt; check(most, 65536), Ok(()));
    assert_eq!(rt; check(most, 65537), Err(Refusal::Sizes));
    assert_eq!(rt; check(letters(1025), 1), Err(Refusal::Sizes));
    assert_eq!(rt; check(over, 1), Err(Refusal::Sizes));
}
