// The calls of a proof and of an open edit, each printed with its answer.
ghost use Rattle.std.specs.Prelude.{◌≡◌, IfSome};

use crate::clerk::Clerk;
use cards::card::Card;
use cards::refusal::Refusal;
use fixtures::name_of;
use keepers::keeper::Keeper;
use tickets::edit::{EditTicket, edit};
use tickets::proof::{ProofTicket, proof};

impl<K: Keeper> Clerk<'_, K> {
    // Opens a proof.
    pub fn open_proof(&mut self, seat: u16) -> Option<ProofTicket> {
        match proof(&mut self.store, seat) {
            Ok((start, ticket)) => {
                self.note(println!(self.rt; "seat {seat} opens a proof, start: {start}"));
                Some(ticket)
            }
            Err(why) => {
                self.refuse("proof", why, "nothing is read");
                None
            }
        }
    }

    // Opens an edit.
    pub fn open_edit(&mut self, seat: u16) -> Option<EditTicket>
        ensures { IfSome result (λ ticket. ticket.seat ≡ seat) }
    {
        match edit(&mut self.store, seat) {
            Ok((start, ticket)) => {
                self.note(println!(self.rt; "seat {seat} opens an edit, start: {start}"));
                Some(ticket)
            }
            Err(why) => {
                self.refuse("edit", why, "nothing is opened");
                None
            }
        }
    }

    // Prints a card that is read.
    fn show(&mut self, entry: u16, card: Card) {
        let name = name_of(entry);
        self.note(println!(self.rt; "  reads {name}: {card}"));
    }

    // Reads a card of a proof.
    pub fn read_proof(&mut self, ticket: &ProofTicket, entry: u16) {
        match ticket.read(&mut self.store, entry) {
            Ok(card) => self.show(entry, card),
            Err(why) => self.refuse("read", why, "it goes without the card"),
        }
    }

    // Reads a card of an edit.
    pub fn read_edit(&mut self, ticket: &EditTicket, entry: u16) -> Result<Card, Refusal> {
        let card = ticket.read(&mut self.store, entry)?;
        self.show(entry, card);
        Ok(card)
    }

    // Drafts a card.
    pub fn write(&mut self, ticket: &EditTicket, entry: u16, card: Card) -> Result<(), Refusal> {
        ticket.write(&mut self.store, entry, card)?;
        let name = name_of(entry);
        self.note(println!(self.rt; "  drafts {name}, {card}"));
        Ok(())
    }
}
