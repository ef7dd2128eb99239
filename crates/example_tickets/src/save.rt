// An edit's way from its drafts to its cards. What is declined is handed on, with the ticket that is left.
ghost use Rattle.std.specs.Prelude.{◌<◌, MatchResult, IfErr};
ghost use Rattle.rules.specs.declared.limits.TheConstants.{SEATS};
ghost use Rattle.example_tickets.specs.Left.{Seated, SeatedBack, SeatedLeft};

use crate::clerk::Clerk;
use keepers::keeper::Keeper;
use saving::unsaved::Unsaved;
use tickets::declined::Declined;
use tickets::edit::EditTicket;
use tickets::stamped::StampedTicket;

impl<K: Keeper> Clerk<'_, K> {
    // Puts so many drafts.
    #[tactic(auto, using(crate::proofs::Seats::seats))]
    fn put_all(
        &mut self,
        mut ticket: StampedTicket,
        count: u32,
    ) -> Result<StampedTicket, Declined<StampedTicket>>
        requires { Seated ticket }
        ensures { MatchResult result Seated SeatedBack }
    {
        for _ in 0..count {
            let (left, same) = ticket.put(&mut self.store)?;
            ticket = same;
            self.note(println!(self.rt; "  puts its next draft, left: {left}"));
        }
        Ok(ticket)
    }

    // Locks an edit, gives it its time, puts its drafts and settles it; answers the time.
    #[tactic(auto, using(crate::proofs::Seats::seats))]
    pub(crate) fn save(&mut self, ticket: EditTicket) -> Result<u32, Unsaved>
        requires { ticket.seat < SEATS }
        ensures { IfErr result SeatedLeft }
    {
        let (count, ticket) = ticket.lock(&mut self.store)?;
        self.note(println!(self.rt; "  locks its drafts, how many: {count}"));
        let (time, ticket) = ticket.stamp(&mut self.store)?;
        self.note(println!(self.rt; "  takes a time: {time}"));
        let ticket = self.put_all(ticket, count)?;
        Ok(ticket.settle(&mut self.store)?)
    }
}
