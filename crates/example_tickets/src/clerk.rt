// Works on a store through tickets, and prints what it does.
use cards::refusal::Refusal;
use keepers::keeper::Keeper;
use std::io;
use store::Store;

#[derive(Drop)]
pub struct Clerk<'a, K: Keeper> {
    pub rt: &'a HostRuntime,
    pub store: Store<K>,
    // The first error of a line. It is told in the end: to stop at it would be to let go of a stamped ticket.
    pub printed: io::Result<()>,
}

impl<K: Keeper> Clerk<'_, K> {
    // Keeps how a line was printed.
    pub fn note(&mut self, line: io::Result<()>) {
        if self.printed.is_ok() {
            self.printed = line;
        }
    }

    pub fn say(&mut self, line: &str) {
        self.note(println!(self.rt; "{line}"));
    }

    // Says that a call was declined, and what is done about it.
    pub fn refuse(&mut self, call: &str, why: Refusal, cure: &str) {
        let number = why.number();
        self.note(println!(self.rt; "  {call} is declined by {number}, {why}: {cure}"));
    }
}
