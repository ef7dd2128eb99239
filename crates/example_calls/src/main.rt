//! A designer moves a mark's anchor and a pair's kern in one edit while proofs are read. The story is played over each keeper in turn, and
//! every call is printed with its answer.
#![tactic(auto)]

mod scenes;
mod teller;

use fixtures::{LETTER, MARK, ONE_OF_EACH, PAIR, name_of};
use keepers::keeper::Keeper;
use keepers::version::Version;
use linked::{Linked, Place};
use roll::Roll;
use std::io;
use store::{Store, check};
use teller::Teller;

// Room for the three first cards, the two new ones, and one more.
const PLACES: usize = 6;

// What a keeper holds of each entry: the time of its oldest version, and whether another follows.
fn tell_held<K: Keeper>(rt: &HostRuntime, keeper: &K) -> io::Result<()> {
    for entry in [LETTER, MARK, PAIR] {
        let name = name_of(entry);
        let oldest = keeper.after(entry, 0).unwrap_or(0);
        match keeper.after(entry, oldest) {
            Some(next) => println!(rt;
                "the keeper holds {name} of time {oldest} and of time {next}"
            ),
            None => println!(rt; "the keeper holds {name} of time {oldest} and no other"),
        }?;
    }
    let spare = keeper.spare();
    println!(rt; "{spare} places to spare")
}

// Plays the story on a new store over a keeper.
fn play<K: Keeper + Drop>(rt: &HostRuntime, name: &str, keeper: K) -> io::Result<()> {
    println!(rt; "The {name} keeper, {PLACES} places")?;
    let mut teller = Teller {
        rt,
        store: Store::new(keeper, ONE_OF_EACH),
    };
    teller.tell()?;
    tell_held(rt, teller.store.keeper())
}

fn main(rt: HostRuntime) -> io::Result<()> {
    if check(ONE_OF_EACH, PLACES).is_err() {
        return println!(rt; "no store has these sizes");
    }
    let mut memory = [Place::empty(); PLACES];
    play(&rt, "linked", Linked::new(&mut memory))?;
    let mut memory = [Version::default(); PLACES];
    play(&rt, "roll", Roll::new(&mut memory))
}
