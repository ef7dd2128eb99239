// What a call does to the plain store, and what it answers.
use crate::plain::Plain;
use cards::card::Card;
use cards::refusal::Refusal;
use keepers::version::Version;
use rules::answer::Answer;
use rules::call::Call;
use rules::stage::Stage;
use std::alloc::AllocError;

impl Plain {
    // Makes a call. The error of the outer result is want of memory.
    pub fn apply(&mut self, call: Call) -> Result<Result<Answer, Refusal>, AllocError> {
        match self.refusal(call) {
            Some(why) => Ok(Err(why)),
            None => Ok(Ok(self.serve(call)?)),
        }
    }

    // A call that is not declined.
    fn serve(&mut self, call: Call) -> Result<Answer, AllocError> {
        match call {
            Call::Proof { seat } => Ok(self.open_proof(seat)),
            Call::Edit { seat } => Ok(self.open_edit(seat)),
            Call::Read { seat, entry } => Ok(Answer::Card(self.read(seat, entry)?)),
            Call::Write { seat, entry, card } => self.write(seat, entry, card),
            Call::Lock { seat } => Ok(self.lock(seat)),
            Call::Stamp { seat } => Ok(self.stamp(seat)),
            Call::Put { seat } => self.put(seat),
            Call::Settle { seat } => Ok(self.settle(seat)),
            Call::Drop { seat } | Call::End { seat } => Ok(self.leave(seat)),
            Call::Collect { entry } => Ok(self.collect(entry)),
        }
    }

    fn begin(&mut self, number: u16, stage: Stage) {
        if let Some(seat) = self.seats.get_mut(number as usize) {
            seat.begin(stage);
        }
    }

    // Goes on with the same lists.
    fn set_stage(&mut self, number: u16, stage: Stage) {
        if let Some(seat) = self.seats.get_mut(number as usize) {
            seat.stage = stage;
        }
    }

    fn open_proof(&mut self, number: u16) -> Answer {
        let start = self.ready();
        self.begin(number, Stage::Proof { start });
        Answer::Number(start)
    }

    fn open_edit(&mut self, number: u16) -> Answer {
        let start = self.clock;
        self.begin(number, Stage::Edit { start });
        Answer::Number(start)
    }

    fn read(&mut self, number: u16, entry: u16) -> Result<Card, AllocError> {
        if let Stage::Proof { start } = self.stage(number) {
            return Ok(self.card_at(entry, start));
        }
        let card = self.card_at(entry, u32::MAX);
        let Some(seat) = self.seats.get_mut(number as usize) else {
            return Ok(card);
        };
        if let Some(own) = seat.draft_of(entry) {
            return Ok(own);
        }
        if !seat.has_read(entry) {
            seat.reads.push(entry)?;
        }
        Ok(card)
    }

    fn write(&mut self, number: u16, entry: u16, card: Card) -> Result<Answer, AllocError> {
        if let Some(seat) = self.seats.get_mut(number as usize) {
            seat.draft(entry, card)?;
        }
        Ok(Answer::Done)
    }

    fn lock(&mut self, number: u16) -> Answer {
        if let Stage::Edit { start } = self.stage(number) {
            self.set_stage(number, Stage::Locked { start });
        }
        self.left(number)
    }

    fn stamp(&mut self, number: u16) -> Answer {
        let time = self.clock.saturating_add(1);
        self.clock = time;
        self.set_stage(number, Stage::Stamped { time, put: 0 });
        Answer::Number(time)
    }

    // How many drafts of the seat are not put.
    fn left(&self, number: u16) -> Answer {
        Answer::Number(u32::try_from(self.unput(number)).unwrap_or(u32::MAX))
    }

    fn put(&mut self, number: u16) -> Result<Answer, AllocError> {
        if let Stage::Stamped { time, put } = self.stage(number) {
            let seat = self.seat(number);
            if let Some(draft) = seat.and_then(|seat| seat.drafts.get(put as usize)).copied() {
                self.versions.push(Version {
                    entry: draft.entry,
                    time,
                    card: draft.card,
                })?;
            }
            let put = put.saturating_add(1);
            self.set_stage(number, Stage::Stamped { time, put });
        }
        Ok(self.left(number))
    }

    fn settle(&mut self, number: u16) -> Answer {
        let time = match self.stage(number) {
            Stage::Stamped { time, .. } => time,
            _ => 0,
        };
        self.begin(number, Stage::Idle);
        Answer::Number(time)
    }

    fn leave(&mut self, number: u16) -> Answer {
        self.begin(number, Stage::Idle);
        Answer::Done
    }

    // Removes the oldest version of the entry; those behind it move up.
    fn collect(&mut self, entry: u16) -> Answer {
        let time = self.next_time(entry, 0).unwrap_or(0);
        self.versions
            .retain(|held| held.entry != entry || held.time != time);
        Answer::Number(time)
    }
}
