//! The ticket of an open proof.
ghost use Rattle.std.specs.Prelude.{◌≡◌};
ghost use Rattle.rules.specs.Rules.{proof, read, end};
ghost use Rattle.store.specs.View.{Does, DoesAs};
ghost use Rattle.tickets.specs.Given.{proof_ticket, with_ticket, closed};

use crate::declined::Declined;
use cards::card::Card;
use cards::refusal::Refusal;
use keepers::keeper::Keeper;
use store::Store;

/// The ticket of a proof: what a host holds while its proof is open. Letting it go leaves the proof open.
#[derive(Drop)]
pub struct ProofTicket {
    pub(crate) seat: u16,
}

/// Opens a proof on a seat, and answers its start with its ticket. Declined as `Store::proof` is.
pub fn proof<K: Keeper>(store: &mut Store<K>, seat: u16) -> Result<(u32, ProofTicket), Refusal>
    ensures call { DoesAs K.means (proof seat)
        (with_ticket (proof_ticket seat)) store.old store.new result }
    ensures keeper { store.new.keeper ≡ store.old.keeper }
{
    store.proof(seat).map(|start| (start, ProofTicket { seat }))
}

impl ProofTicket {
    /// Reads an entry's card, as `Store::read` does on its seat.
    pub fn read<K: Keeper>(&self, store: &mut Store<K>, entry: u16) -> Result<Card, Refusal>
        ensures call { Does K.means (read self.now.seat entry) store.old store.new result }
        ensures keeper { store.new.keeper ≡ store.old.keeper }
    {
        store.read(self.seat, entry)
    }

    /// Closes the proof, as `Store::end` does. Declined by `Stage`, it takes the ticket in; else it gives it back.
    pub fn end<K: Keeper>(self, store: &mut Store<K>) -> Result<(), Declined<ProofTicket>>
        ensures call { DoesAs K.means (end self.seat) (closed self) store.old store.new result }
        ensures keeper { store.new.keeper ≡ store.old.keeper }
    {
        store.end(self.seat).map_err(|why| Declined::by(why, self))
    }
}
