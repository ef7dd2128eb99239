// The scenes: an edit that is overtaken begins again and is saved, and a proof reads what it wrote.
ghost use Rattle.std.specs.Prelude.{◌<◌, IfErr, IfSome};
ghost use Rattle.rules.specs.declared.limits.TheConstants.{SEATS};
ghost use Rattle.example_tickets.specs.Left.{Seated};

use crate::clerk::Clerk;
use crate::drawn::{letter_card, mark_card};
use cards::refusal::Refusal;
use fixtures::{LETTER, MARK, PAIR, kerned};
use keepers::keeper::Keeper;
use tickets::edit::EditTicket;
use tickets::stamped::StampedTicket;

// Who sits where.
const DESIGNER: u16 = 2;

const OTHER: u16 = 3;

const READER: u16 = 4;

impl<K: Keeper> Clerk<'_, K> {
    // Saves an edit, and says whether it is saved; if not, it is given up.
    fn finish(&mut self, ticket: EditTicket) -> Result<bool, StampedTicket>
        requires { ticket.seat < SEATS }
        ensures { IfErr result Seated }
    {
        match self.save(ticket) {
            Ok(time) => {
                self.note(println!(self.rt; "  settles, time: {time}"));
                Ok(true)
            }
            Err(unsaved) => {
                self.give_up(unsaved)?;
                Ok(false)
            }
        }
    }

    // Another edit, which writes the mark.
    fn overtake(&mut self) -> Result<(), StampedTicket>
        ensures { IfErr result Seated }
    {
        let Some(ticket) = self.open_edit(OTHER) else {
            return Ok(());
        };
        if let Err(why) = self.write(&ticket, MARK, mark_card()) {
            self.drop_open("write", why, ticket);
            return Ok(());
        }
        self.finish(ticket)?;
        Ok(())
    }

    // Reads the mark, and drafts the letter and the pair.
    fn draft(&mut self, ticket: &EditTicket) -> Result<(), Refusal> {
        let mark = self.read_edit(ticket, MARK)?;
        self.write(ticket, LETTER, letter_card(mark))?;
        self.write(ticket, PAIR, kerned(-40))
    }

    // The letter's edit up to its drafts, where it comes so far.
    fn drafted(&mut self) -> Option<EditTicket>
        ensures { IfSome result (λ ticket. ticket.seat < SEATS) }
    {
        let ticket = self.open_edit(DESIGNER)?;
        if let Err(why) = self.draft(&ticket) {
            self.drop_open("read or write", why, ticket);
            return None;
        }
        Some(ticket)
    }

    // The letter's edit is overtaken by the mark's; says whether it is saved all the same.
    fn overtaken(&mut self) -> Result<bool, StampedTicket>
        ensures { IfErr result Seated }
    {
        let Some(ticket) = self.drafted() else {
            return Ok(false);
        };
        self.say("-- meanwhile, the mark's edit");
        self.overtake()?;
        self.say("-- the letter's edit goes on");
        self.finish(ticket)
    }

    // The letter's edit, with none beside it.
    fn again(&mut self) -> Result<(), StampedTicket>
        ensures { IfErr result Seated }
    {
        if let Some(ticket) = self.drafted() {
            self.finish(ticket)?;
        }
        Ok(())
    }

    // A proof reads the letter.
    fn read_back(&mut self) {
        let Some(ticket) = self.open_proof(READER) else {
            return;
        };
        self.read_proof(&ticket, LETTER);
        let outcome = ticket.end(&mut self.store);
        self.closed("end", outcome);
    }

    // An edit that is overtaken begins again, and a proof reads what it wrote. A stamped ticket that could not be settled is
    // handed on.
    pub fn tell(&mut self) -> Result<(), StampedTicket>
        ensures { IfErr result Seated }
    {
        self.say("-- the letter's edit");
        if !self.overtaken()? {
            self.say("-- the letter's edit begins again");
            self.again()?;
        }
        self.say("-- a proof");
        self.read_back();
        Ok(())
    }
}
