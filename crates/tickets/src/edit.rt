//! The ticket of an open edit.
ghost use Rattle.std.specs.Prelude.{◌≡◌};
ghost use Rattle.rules.specs.Rules.{edit, read, write, lock, drop_edit};
ghost use Rattle.store.specs.View.{Does, DoesAs};
ghost use Rattle.tickets.specs.Given.{edit_ticket, locked_ticket, with_ticket, passed, closed};

use crate::declined::Declined;
use crate::locked::LockedTicket;
use cards::card::Card;
use cards::refusal::Refusal;
use keepers::keeper::Keeper;
use store::Store;

/// The ticket of an open edit: what a host holds while it reads and writes. Letting it go leaves the edit open.
#[derive(Drop)]
pub struct EditTicket {
    pub(crate) seat: u16,
}

/// Opens an edit on a seat, and answers its start with its ticket. Declined as `Store::edit` is.
pub fn edit<K: Keeper>(store: &mut Store<K>, seat: u16) -> Result<(u32, EditTicket), Refusal>
    ensures call { DoesAs K.means (edit seat)
        (with_ticket (edit_ticket seat)) store.old store.new result }
    ensures keeper { store.new.keeper ≡ store.old.keeper }
{
    store.edit(seat).map(|start| (start, EditTicket { seat }))
}

impl EditTicket {
    /// Reads an entry's card, as `Store::read` does on its seat.
    pub fn read<K: Keeper>(&self, store: &mut Store<K>, entry: u16) -> Result<Card, Refusal>
        ensures call { Does K.means (read self.now.seat entry) store.old store.new result }
        ensures keeper { store.new.keeper ≡ store.old.keeper }
    {
        store.read(self.seat, entry)
    }

    /// Drafts a card for an entry, as `Store::write` does on its seat.
    pub fn write<K: Keeper>(
        &self,
        store: &mut Store<K>,
        entry: u16,
        card: Card,
    ) -> Result<(), Refusal>
        ensures call { Does K.means (write self.now.seat entry card) store.old store.new result }
        ensures keeper { store.new.keeper ≡ store.old.keeper }
    {
        store.write(self.seat, entry, card)
    }

    /// Locks the drafted entries, as `Store::lock` does, and answers how many with the ticket of the locked edit. Declined by `Stage`, it
    /// takes the ticket in; else it gives it back.
    pub fn lock<K: Keeper>(
        self,
        store: &mut Store<K>,
    ) -> Result<(u32, LockedTicket), Declined<EditTicket>>
        ensures call { DoesAs K.means (lock self.seat) (passed self (locked_ticket self.seat))
            store.old store.new result }
        ensures keeper { store.new.keeper ≡ store.old.keeper }
    {
        let seat = self.seat;
        store
            .lock(seat)
            .map(|count| (count, LockedTicket { seat }))
            .map_err(|why| Declined::by(why, self))
    }

    /// Gives the edit up, as `Store::drop_edit` does. Declined by `Stage`, it takes the ticket in; else it gives it back.
    pub fn drop_edit<K: Keeper>(self, store: &mut Store<K>) -> Result<(), Declined<EditTicket>>
        ensures call { DoesAs K.means (drop_edit self.seat)
            (closed self) store.old store.new result }
        ensures keeper { store.new.keeper ≡ store.old.keeper }
    {
        store
            .drop_edit(self.seat)
            .map_err(|why| Declined::by(why, self))
    }
}
