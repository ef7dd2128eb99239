// Saves, by the calls that they take, and stores that are filled by them.
use cards::card::Card;
use cards::refusal::Refusal;
use fixtures::{letters, wide};
use keepers::keeper::Keeper;
use store::Store;

// What one save is asked: by which seat, of which entry, and its next card.
#[derive(Clone, Copy)]
pub struct Wish {
    pub seat: u16,
    pub entry: u16,
    pub card: Card,
}

// A whole save of one draft, after a look at the card that it replaces; answers its time.
pub fn save<K: Keeper>(store: &mut Store<K>, wish: Wish) -> Result<u32, Refusal> {
    let Wish { seat, entry, card } = wish;
    store.edit(seat)?;
    store.read(seat, entry)?;
    store.write(seat, entry, card)?;
    store.lock(seat)?;
    store.stamp(seat)?;
    store.put(seat)?;
    store.settle(seat)
}

// Saves so many versions of an entry, numbered from `first` on; their cards bear the numbers, modulo 1,001.
pub fn save_some<K: Keeper>(store: &mut Store<K>, entry: u16, first: u32, versions: u32) {
    for number in first..first.saturating_add(versions) {
        let wish = Wish {
            seat: 15,
            entry,
            card: wide((number % 1001) as i16),
        };
        let _ = save(store, wish);
    }
}

// Saves a version of each entry from `from` to below `to`.
fn save_each<K: Keeper>(store: &mut Store<K>, from: u16, to: u16, number: u32) {
    for entry in from..to {
        save_some(store, entry, number, 1);
    }
}

// Saves so many versions of each of these entries, which take turns.
pub fn fill<K: Keeper>(store: &mut Store<K>, from: u16, to: u16, versions: u32) {
    for number in 0..versions {
        save_each(store, from, to, number);
    }
}

// A store of so many letters over an empty keeper, with a version of each.
pub fn filled<K: Keeper>(keeper: K, entries: u16) -> Store<K> {
    let mut store = Store::new(keeper, letters(usize::from(entries)));
    save_each(&mut store, 0, entries, 1);
    store
}
