//! The ticket of a stamped edit. It may not be let go before it is spent: while its edit is not settled, the ready point may stand
//! still for everyone.
ghost use Rattle.std.specs.Prelude.{◌≡◌, None};
ghost use Rattle.rules.specs.Rules.{put, settle};
ghost use Rattle.rules.specs.State.{seat as seat-of};
ghost use Rattle.store.specs.View.{DoesAs, view};
ghost use Rattle.tickets.specs.Given.{is_stamped, declined, put_passed, closed};

use crate::declined::{Declined, is_stage};
use cards::refusal::Refusal;
use keepers::keeper::Keeper;
use rules::stage::Stage;
use store::Store;

/// The ticket of a stamped edit. Its seat is there until it is spent, which settling does, or a call that takes it in.
pub struct StampedTicket {
    pub(crate) seat: Option<u16>,
}

impl Drop for StampedTicket {
    fn drop(self)
        requires { self.seat ≡ None }
    {
        let StampedTicket { seat: _ } = self;
    }
}

// A seat that no store has.
const NO_SEAT: u16 = u16::MAX;

// Whether a seat is stamped.
fn is_stamped(stage: Stage) -> bool
    ensures { result ≡ is_stamped stage }
{
    matches!(stage, Stage::Stamped { .. })
}

impl StampedTicket {
    ghost use Rattle.tickets.specs.Given.{named};

    // The seat that it names. Nobody holds a spent one; it would name a seat that no store has.
    fn named(&self) -> u16
        ensures { result ≡ named self.now }
    {
        self.seat.unwrap_or(NO_SEAT)
    }

    // Spends it, and only so it may be let go.
    fn spend(mut self) {
        self.seat = None;
    }

    // `Declined::by` for a ticket that may not be let go unspent: it is spent and taken in, or given back.
    fn declined(self, gone: bool, why: Refusal) -> Declined<StampedTicket>
        ensures { result ≡ declined gone self why }
    {
        if gone {
            self.spend();
            return Declined::TakenIn;
        }
        Declined::Back { why, ticket: self }
    }

    /// Hands the next draft to the keeper, as `Store::put` does, and answers how many are left, with the same ticket. Declined by `Stage` on
    /// a seat that is not stamped, it takes the ticket in; else it gives it back.
    pub fn put<K: Keeper>(
        self,
        store: &mut Store<K>,
    ) -> Result<(u32, StampedTicket), Declined<StampedTicket>>
        ensures call { DoesAs K.means (put (named self))
            (put_passed self (is_stamped (seat-of (view K.means store.old) (named self)).stage))
            store.old store.new result }
    {
        let seat = self.named();
        match store.put(seat) {
            Ok(left) => Ok((left, self)),
            Err(why) => {
                // The store is as it was, so its stage tells why.
                let gone = is_stage(why) && !is_stamped(store.stage(seat));
                Err(self.declined(gone, why))
            }
        }
    }

    /// Closes the edit, as `Store::settle` does, and answers its time. Declined by `Stage`, it takes the ticket in; else it gives it back.
    pub fn settle<K: Keeper>(self, store: &mut Store<K>) -> Result<u32, Declined<StampedTicket>>
        ensures call { DoesAs K.means (settle (named self))
            (closed self) store.old store.new result }
        ensures keeper { store.new.keeper ≡ store.old.keeper }
    {
        match store.settle(self.named()) {
            Ok(time) => {
                self.spend();
                Ok(time)
            }
            Err(why) => Err(self.declined(is_stage(why), why)),
        }
    }
}
