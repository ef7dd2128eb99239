//! The ticket of a locked edit. There is no writing through it: one writes before locking, or drops the edit and begins again.
ghost use Rattle.std.specs.Prelude.{◌≡◌};
ghost use Rattle.rules.specs.Rules.{stamp, drop_edit};
ghost use Rattle.store.specs.View.{DoesAs};
ghost use Rattle.tickets.specs.Given.{stamped_ticket, passed, closed};

use crate::declined::Declined;
use crate::stamped::StampedTicket;
use cards::refusal::Refusal;
use keepers::keeper::Keeper;
use store::Store;

/// The ticket of a locked edit. Letting it go leaves the edit open and its entries locked.
#[derive(Drop)]
pub struct LockedTicket {
    pub(crate) seat: u16,
}

impl LockedTicket {
    /// Takes the next time, as `Store::stamp` does, and answers it with the ticket of the stamped edit. Declined by `Stage`, it takes the
    /// ticket in; else it gives it back.
    pub fn stamp<K: Keeper>(
        self,
        store: &mut Store<K>,
    ) -> Result<(u32, StampedTicket), Declined<LockedTicket>>
        ensures call { DoesAs K.means (stamp self.seat) (passed self (stamped_ticket self.seat))
            store.old store.new result }
        ensures keeper { store.new.keeper ≡ store.old.keeper }
    {
        let seat = self.seat;
        store
            .stamp(seat)
            .map(|time| (time, StampedTicket { seat: Some(seat) }))
            .map_err(|why| Declined::by(why, self))
    }

    /// Gives the edit up, as `Store::drop_edit` does, and so releases its locks. Declined by `Stage`, it takes the ticket in; else it gives
    /// it back.
    pub fn drop_edit<K: Keeper>(self, store: &mut Store<K>) -> Result<(), Declined<LockedTicket>>
        ensures call { DoesAs K.means (drop_edit self.seat)
            (closed self) store.old store.new result }
        ensures keeper { store.new.keeper ≡ store.old.keeper }
    {
        store
            .drop_edit(self.seat)
            .map_err(|why| Declined::by(why, self))
    }
}
