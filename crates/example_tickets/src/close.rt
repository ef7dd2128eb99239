// The end of a store with an edit that could not be settled.
ghost use Rattle.example_tickets.specs.Left.{Seated};

use keepers::keeper::Keeper;
use store::{Sizes, Store};
use tickets::declined::Declined;
use tickets::stamped::StampedTicket;

// Closes the store with all that is open in it. Over its keeper begins a new one, which knows of no edit and takes the ticket in.
#[tactic(auto, using(crate::proofs::Fresh::settle_fresh))]
pub(crate) fn close<K: Keeper + Drop>(store: Store<K>, ticket: StampedTicket)
    requires { Seated ticket }
{
    let mut fresh = Store::new(store.into_keeper(), Sizes::default());
    match ticket.settle(&mut fresh) {
        Err(Declined::TakenIn) => {}
        _ => unreachable!(),
    }
}
