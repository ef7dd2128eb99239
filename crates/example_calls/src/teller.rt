// Makes calls on a store, and prints each with its answer.
use cards::refusal::Refusal;
use fixtures::name_of;
use keepers::keeper::Keeper;
use rules::answer::Answer;
use rules::call::Call;
use std::io;
use store::Store;

// A store, and where its answers are printed.
#[derive(Drop)]
pub struct Teller<'a, K: Keeper> {
    pub rt: &'a HostRuntime,
    pub store: Store<K>,
}

fn say(rt: &HostRuntime, call: Call) -> io::Result<()> {
    match call {
        Call::Proof { seat } => print!(rt; "seat {seat} opens a proof, start: "),
        Call::Edit { seat } => print!(rt; "seat {seat} opens an edit, start: "),
        Call::Read { seat, entry } => {
            let name = name_of(entry);
            print!(rt; "seat {seat} reads {name}: ")
        }
        Call::Write { seat, entry, card } => {
            let name = name_of(entry);
            print!(rt; "seat {seat} drafts {name}, {card}: ")
        }
        Call::Lock { seat } => print!(rt; "seat {seat} locks its drafts, how many: "),
        Call::Stamp { seat } => print!(rt; "seat {seat} takes a time: "),
        Call::Put { seat } => print!(rt; "seat {seat} puts its next draft, left: "),
        Call::Settle { seat } => print!(rt; "seat {seat} settles its edit, time: "),
        Call::Drop { seat } => print!(rt; "seat {seat} drops its edit: "),
        Call::End { seat } => print!(rt; "seat {seat} ends its proof: "),
        Call::Collect { entry } => {
            let name = name_of(entry);
            print!(rt; "collect the oldest version of {name}, its time: ")
        }
    }
}

fn reply(rt: &HostRuntime, answer: Result<Answer, Refusal>) -> io::Result<()> {
    match answer {
        Ok(Answer::Number(value)) => println!(rt; "{value}"),
        Ok(Answer::Card(card)) => { println!(rt; "{card}") }
        Ok(Answer::Done) => println!(rt; "done"),
        Err(why) => {
            let number = why.number();
            println!(rt; "declined by {number}, {why}")
        }
    }
}

impl<K: Keeper> Teller<'_, K> {
    // Makes calls in order, under a title, and prints each with its answer.
    pub fn act_all(&mut self, title: &str, calls: &[Call]) -> io::Result<()> {
        println!(self.rt; "-- {title}")?;
        let mut answers = vec![in self.rt.alloc(); Ok(Answer::Done); calls.len()]?;
        if let Err(why) = self.store.apply_all(calls, &mut answers) {
            return println!(self.rt; "no call is made, {why}");
        }
        for (call, answer) in calls.iter().zip(answers.iter()) {
            say(self.rt, *call)?;
            reply(self.rt, *answer)?;
        }
        Ok(())
    }
}
