//! The table of a store.
ghost use Rattle.std.specs.Prelude.{◌≡◌, ◌+◌, ◌*◌, ◌≤◌, length, replicate, Ok, nat_lt};
ghost use Rattle.cards.specs.Holding.{Holding};
ghost use Rattle.rules.specs.NewStore.{suited, unused};
ghost use Rattle.rules.specs.Rules.{in_entry, fits as fits-at};
ghost use Rattle.rules.specs.Seat.{idle};
ghost use Rattle.rules.specs.State.{seat as seat-of, ready as ready-point, floor as floor-point, unput_all};
ghost use Rattle.rules.specs.declared.limits.TheConstants.{SEATS, MOST_DRAFTS};

use crate::counts::Counts;
use crate::rows::Rows;
use crate::seat::Seat;
use crate::seat_number::SeatNumber;
use cards::card::Card;
use cards::kind::{Letter, Mark, Pair, fits};
use cards::refusal::Refusal;
use rules::limits::{MOST_DRAFTS, SEATS};
use rules::sizes::Sizes;
use std::array;

/// What a store has beside its keeper: its sizes, its seats, its rows and its clock, which is the last time given.
///
/// The fields are open, so that seats and rows can be lent side by side.
#[derive(Drop)]
pub struct Table {
    pub counts: Counts,
    pub seats: [Seat; SEATS],
    pub rows: Rows,
    pub clock: u32,
}

// The most drafts that can want a place: those of each seat, and once more those of the seat that asks. (A locked seat has none to put,
// but any seat may ask.)
const MOST_WANTED: u32 = ((SEATS + 1) * MOST_DRAFTS) as u32;

// Sixteen idle seats.
fn idle_seats() -> [Seat; SEATS]
    ensures { result ≡ replicate SEATS idle }
{
    array::from_fn(|_| Seat::idle())
}

// How many drafts seats have not yet put.
fn unput(seats: &[Seat]) -> u32
    requires { length seats.now ≤ SEATS }
    ensures { result ≡ unput_all seats.now }
{
    let mut count = 0;
    for seat in seats {
        count += seat.unput();
    }
    count
}

// That each seat has 16 drafts at most. It computes nothing.
fn bound_unput(seats: &[Seat])
    ensures { unput_all seats.now ≤ length seats.now * MOST_DRAFTS }
{
    for seat in seats {
        let _ = seat.unput();
    }
}

impl Table {
    ghost use Rattle.table.specs.View.{view_table, alone, places_wanted};

    /// A new table with these sizes, or with no entries where no store may have them.
    pub fn new(sizes: Sizes) -> Table
        ensures { (h : Holding) → view_table result h ≡ unused (suited sizes) h }
    {
        let counts = Counts::new(sizes);
        Table {
            counts,
            seats: idle_seats(),
            rows: Rows::new(counts),
            clock: 0,
        }
    }

    /// A seat by its number.
    pub fn seat(&self, seat: SeatNumber) -> &Seat
        ensures { result.now ≡ seat-of (alone self.now) seat.number }
    {
        &self.seats[usize::from(seat)]
    }

    /// `Entry` for an entry that the table does not have.
    pub fn check_entry(&self, entry: u16) -> Result<(), Refusal>
        ensures { result ≡ in_entry (alone self.now) entry (Ok tt) }
    {
        if usize::from(entry) >= self.counts.entries() {
            return Err(Refusal::Entry);
        }
        Ok(())
    }

    /// Whether a card has no field that its entry's kind may not bear; an entry past the last is judged as a pair.
    pub fn fits(&self, entry: u16, card: Card) -> bool
        ensures { result ≡ fits-at (alone self.now) entry card }
    {
        let Sizes { letters, marks, .. } = self.counts.sizes;
        if usize::from(entry) < letters {
            return fits::<Letter>(card);
        }
        if usize::from(entry) < letters + marks {
            return fits::<Mark>(card);
        }
        fits::<Pair>(card)
    }

    /// The ready point: up to it everything that was stamped is put.
    pub fn ready(&self) -> u32
        ensures { result ≡ ready-point (alone self.now) }
    {
        let mut ready = self.clock;
        let seats: &[Seat] = &self.seats;
        for seat in seats {
            ready = seat.lower_ready(ready);
        }
        ready
    }

    /// The floor: the ready point, lowered to the start of each proof that is open.
    pub fn floor(&self) -> u32
        ensures { result ≡ floor-point (alone self.now) }
    {
        let mut floor = self.ready();
        let seats: &[Seat] = &self.seats;
        for seat in seats {
            floor = seat.lower_floor(floor);
        }
        floor
    }

    /// Whether a keeper with so many spare places has too few for all drafts not yet put and this seat's own. Where it has places for
    /// the most that there can be, the seats are not gone over.
    pub fn lacks_places(&self, seat: SeatNumber, spare: u32) -> bool
        ensures { result ≡ nat_lt spare (places_wanted self.now seat.number) }
    {
        let drafts = self.seat(seat).drafts_len();
        bound_unput(&self.seats);
        spare < MOST_WANTED && spare < unput(&self.seats) + drafts
    }
}
