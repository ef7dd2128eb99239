// Which refusal the plain store gives: the first of the table that applies.
use crate::plain::{Plain, SEATS, map_of};
use crate::seat::Seat;
use cards::refusal::Refusal;
use rules::call::Call;
use rules::stage::Stage;

// The last time that is given.
pub const LAST_TIME: u32 = 1_000_000;

// The most entries on a reading list.
const MOST_READS: usize = 32;

// The most drafts of an edit.
const MOST_DRAFTS: usize = 16;

// The refusals of a store's calls, in the table's order.
const TABLE: [Refusal; 12] = [
    Refusal::Seat,
    Refusal::Stage,
    Refusal::Entry,
    Refusal::Misfit,
    Refusal::Held,
    Refusal::Stale,
    Refusal::List,
    Refusal::Places,
    Refusal::Clock,
    Refusal::Unput,
    Refusal::Waiting,
    Refusal::Needed,
];

// The seat that a call names.
pub fn seat_of(call: Call) -> Option<u16> {
    match call {
        Call::Proof { seat }
        | Call::Edit { seat }
        | Call::Read { seat, .. }
        | Call::Write { seat, .. }
        | Call::Lock { seat }
        | Call::Stamp { seat }
        | Call::Put { seat }
        | Call::Settle { seat }
        | Call::Drop { seat }
        | Call::End { seat } => Some(seat),
        Call::Collect { .. } => None,
    }
}

// The entry that a call names.
pub fn entry_of(call: Call) -> Option<u16> {
    match call {
        Call::Read { entry, .. } | Call::Write { entry, .. } | Call::Collect { entry } => Some(
            entry,
        ),
        _ => None,
    }
}

// Whether a seat in this state is served by the call.
fn serves(call: Call, seat: &Seat) -> bool {
    match call {
        Call::Proof { .. } | Call::Edit { .. } => matches!(seat.stage, Stage::Idle),
        Call::Read { .. } => matches!(seat.stage, Stage::Proof { .. } | Stage::Edit { .. }),
        Call::Write { .. } | Call::Lock { .. } => matches!(seat.stage, Stage::Edit { .. }),
        Call::Stamp { .. } => matches!(seat.stage, Stage::Locked { .. }),
        Call::Put { .. } => matches!(seat.stage, Stage::Stamped { .. }) && seat.unput() > 0,
        Call::Settle { .. } => matches!(seat.stage, Stage::Stamped { .. }),
        Call::Drop { .. } => matches!(seat.stage, Stage::Edit { .. } | Stage::Locked { .. }),
        Call::End { .. } => matches!(seat.stage, Stage::Proof { .. }),
        Call::Collect { .. } => true,
    }
}

// The start of an edit that has no time yet.
fn edit_start(seat: &Seat) -> Option<u32> {
    match seat.stage {
        Stage::Edit { start } | Stage::Locked { start } => Some(start),
        _ => None,
    }
}

impl Plain {
    // The refusal of a call, if it is declined.
    pub fn refusal(&self, call: Call) -> Option<Refusal> {
        for why in TABLE {
            if self.applies(why, call) {
                return Some(why);
            }
        }
        None
    }

    fn applies(&self, why: Refusal, call: Call) -> bool {
        if let Refusal::Needed = why {
            return self.is_needed(call);
        }
        if let Refusal::Entry = why {
            return entry_of(call).is_some_and(|entry| entry >= self.entries());
        }
        let Some(number) = seat_of(call) else {
            return false;
        };
        let Some(seat) = self.seat(number) else {
            return matches!(why, Refusal::Seat);
        };
        match why {
            Refusal::Stage => !serves(call, seat),
            Refusal::Misfit => self.misfits(call),
            Refusal::Held => self.is_held(call, number, seat),
            Refusal::Stale => self.is_stale(call, seat),
            Refusal::List => has_full_list(call, seat),
            Refusal::Places => self.lacks_places(call, seat),
            Refusal::Clock => matches!(call, Call::Stamp { .. }) && self.clock >= LAST_TIME,
            Refusal::Unput => matches!(call, Call::Settle { .. }) && seat.unput() > 0,
            Refusal::Waiting => self.must_wait(call, seat),
            _ => false,
        }
    }

    fn misfits(&self, call: Call) -> bool {
        match call {
            Call::Write { entry, card, .. } => map_of(card) & !self.kind_map(entry) != 0,
            _ => false,
        }
    }

    fn other_has(&self, entry: u16, number: u16) -> bool {
        self.locker(entry).is_some_and(|other| other != number)
    }

    // Held, stale and list are asked of an edit's read of what it has not drafted.
    fn is_held(&self, call: Call, number: u16, seat: &Seat) -> bool {
        match call {
            Call::Read { entry, .. } => looks_it_up(seat, entry) && self.other_has(entry, number),
            Call::Lock { .. } => seat
                .drafts
                .iter()
                .any(|draft| self.other_has(draft.entry, number)),
            Call::Stamp { .. } => seat.reads.iter().any(|read| self.other_has(*read, number)),
            _ => false,
        }
    }

    fn is_stale(&self, call: Call, seat: &Seat) -> bool {
        let Some(start) = edit_start(seat) else {
            return false;
        };
        match call {
            Call::Read { entry, .. } => looks_it_up(seat, entry) && self.row_time(entry) > start,
            Call::Stamp { .. } => seat.reads.iter().any(|read| self.row_time(*read) > start),
            _ => false,
        }
    }

    fn lacks_places(&self, call: Call, seat: &Seat) -> bool {
        if !matches!(call, Call::Stamp { .. }) {
            return false;
        }
        let mut wanted = seat.drafts.len();
        for other in &self.seats {
            if let Stage::Stamped { .. } = other.stage {
                wanted = wanted.saturating_add(other.unput());
            }
        }
        self.spare() < wanted
    }

    fn must_wait(&self, call: Call, seat: &Seat) -> bool {
        match (call, seat.stage) {
            (Call::Settle { .. }, Stage::Stamped { time, .. }) => self.ready() < time,
            _ => false,
        }
    }

    // Whether the entry has no version that may be collected: the oldest has no follower, or one above the floor.
    fn is_needed(&self, call: Call) -> bool {
        let Call::Collect { entry } = call else {
            return false;
        };
        let Some(oldest) = self.next_time(entry, 0) else {
            return true;
        };
        match self.next_time(entry, oldest) {
            Some(follower) => follower > self.floor(),
            None => true,
        }
    }
}

// Whether a read is an edit's, of an entry that it has not drafted.
fn looks_it_up(seat: &Seat, entry: u16) -> bool {
    matches!(seat.stage, Stage::Edit { .. }) && seat.draft_of(entry).is_none()
}

fn has_full_list(call: Call, seat: &Seat) -> bool {
    match call {
        Call::Read { entry, .. } => {
            looks_it_up(seat, entry) && !seat.has_read(entry) && seat.reads.len() >= MOST_READS
        }
        Call::Write { entry, .. } => {
            seat.draft_of(entry).is_none() && seat.drafts.len() >= MOST_DRAFTS
        }
        _ => false,
    }
}
