// What is done about an edit that could not be saved.
ghost use Rattle.std.specs.Prelude.{IfErr};
ghost use Rattle.example_tickets.specs.Left.{Seated, SeatedLeft};

use crate::clerk::Clerk;
use cards::refusal::Refusal;
use keepers::keeper::Keeper;
use saving::unsaved::Unsaved;
use tickets::declined::Declined;
use tickets::edit::EditTicket;
use tickets::stamped::StampedTicket;

impl<K: Keeper> Clerk<'_, K> {
    // Says how a drop or an end went. A ticket that comes back from it may be let go, since it is not a stamped one.
    pub fn closed<T: Drop>(&mut self, call: &str, outcome: Result<(), Declined<T>>) {
        match outcome {
            Ok(()) => self.note(println!(self.rt; "  {call}: done")),
            Err(Declined::Back { why, ticket: _ }) => {
                self.refuse(call, why, "its ticket is let go")
            }
            Err(Declined::TakenIn) => self.refuse(call, Refusal::Stage, "its ticket is gone"),
        }
    }

    // Drops an open edit of which a call was declined.
    pub fn drop_open(&mut self, call: &str, why: Refusal, ticket: EditTicket) {
        self.refuse(call, why, "the edit is dropped");
        let outcome = ticket.drop_edit(&mut self.store);
        self.closed("drop", outcome);
    }

    // Drops what is left of an edit. A stamped one can't be dropped, and its ticket is handed on.
    pub(crate) fn give_up(&mut self, unsaved: Unsaved) -> Result<(), StampedTicket>
        requires { SeatedLeft unsaved }
        ensures { IfErr result Seated }
    {
        match unsaved {
            Unsaved::Gone => self.refuse("a call", Refusal::Stage, "the ticket is gone"),
            Unsaved::Open { why, ticket } => self.drop_open("lock", why, ticket),
            Unsaved::Locked { why, ticket } => {
                self.refuse("stamp", why, "the edit is dropped");
                let outcome = ticket.drop_edit(&mut self.store);
                self.closed("drop", outcome);
            }
            Unsaved::Stamped { why, ticket } => {
                // No other edit is open that one could wait for.
                self.refuse("put or settle", why, "the store is closed");
                return Err(ticket);
            }
        }
        Ok(())
    }
}
