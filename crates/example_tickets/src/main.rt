//! A letter's anchor is moved to a mark's, and a kern set beside it, in one edit through tickets. The mark's own edit overtakes it, so it is
//! dropped and begins again. Every action is printed, and every refusal with what is done about it.
#![tactic(auto)]

mod clerk;
mod close;
mod drawn;
mod left;
mod save;
mod scenes;
mod steps;

use clerk::Clerk;
use close::close;
use fixtures::ONE_OF_EACH;
use linked::{Linked, Place};
use std::io;
use store::{Store, check};

// Room for the cards of the mark, the letter and the pair, and one more.
const PLACES: usize = 4;

fn main(rt: HostRuntime) -> io::Result<()> {
    if check(ONE_OF_EACH, PLACES).is_err() {
        return println!(rt; "no store has these sizes");
    }
    let mut memory = [Place::empty(); PLACES];
    let mut clerk = Clerk {
        rt: &rt,
        store: Store::new(Linked::new(&mut memory), ONE_OF_EACH),
        printed: Ok(()),
    };
    let told = clerk.tell();
    let Clerk {
        rt: _,
        store,
        printed,
    } = clerk;
    if let Err(ticket) = told {
        close(store, ticket);
    }
    printed
}
