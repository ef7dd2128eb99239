//! The rows, one for each entry: who has an entry locked, and since when its newest card stands.
ghost use Rattle.std.specs.Prelude.{◌≡◌, map, replicate, slice_set};
ghost use Rattle.cards.specs.declared.entry.TheConstants.{ENTRIES};
ghost use Rattle.rules.specs.Rows.{free_row, row_at, locked_by_other, any_locked_by_other, any_stale, unless, take_locks, release_locks};
ghost use Rattle.rules.specs.State.{entries};

use crate::counts::Counts;
use crate::seat_number::SeatNumber;
use cards::draft::Draft;
use cards::entry::ENTRIES;
use keepers::search::BearsEntry;
use rules::row::Row;
use std::marker::Model;

/// One for each entry of a table. An entry past the last counts as free, and stays as it is.
///
/// Contracts see the list of the rows. They stand first in the memory; what is behind them does not count.
#[derive(Drop)]
pub struct Rows {
    rows: [Row; ENTRIES],
    entries: usize,
}

impl Model for Rows {
    ghost use Rattle.std.specs.Prelude.{◌≤◌, List, take};
    ghost use Rattle.cards.specs.declared.entry.TheConstants.{ENTRIES};
    ghost use Rattle.rules.specs.declared.row.Row.{Row};

    ghost Value = { List Row };

    ghost view = { λ x. take x.entries x.rows };

    ghost invariant = { λ x. x.entries ≤ ENTRIES };
}

/// Whether another seat than this one has a row locked.
pub fn locked_by_other(row: Row, seat: SeatNumber) -> bool
    ensures { result ≡ locked_by_other row.lock seat.number }
{
    row.lock.is_some_and(|holder| holder != seat.number)
}

// What is left of a lock when a seat lets go: another seat's stays.
fn unless(lock: Option<u16>, seat: SeatNumber) -> Option<u16>
    ensures { result ≡ unless seat.number lock }
{
    lock.filter(|holder| *holder != seat.number)
}

// A free row in every place.
fn free_rows() -> [Row; ENTRIES]
    ensures { result ≡ replicate ENTRIES free_row }
{
    [Row::default(); ENTRIES]
}

impl Rows {
    // Free rows.
    pub(crate) fn new(counts: Counts) -> Rows
        ensures { result ≡ replicate (entries counts.sizes) free_row }
    {
        Rows {
            rows: free_rows(),
            entries: counts.entries(),
        }
    }

    /// The row of an entry; a free one where there is none.
    pub fn row_of(&self, entry: u16) -> Row
        ensures { result ≡ row_at self.now entry }
    {
        let rows = &self.rows[..self.entries];
        rows.get(usize::from(entry)).copied().unwrap_or_default()
    }

    /// Gives an entry another row, if there is such an entry.
    #[tactic(auto, using(crate::proofs::Lists::front))]
    pub fn set_row(&mut self, entry: u16, row: Row)
        ensures { self.new ≡ slice_set self.old entry row }
    {
        let at = usize::from(entry);
        if at < self.entries {
            self.rows[at] = row;
        }
    }

    /// Whether another seat than this one has one of the items' entries locked.
    pub fn any_locked_by_other<T: BearsEntry>(&self, seat: SeatNumber, items: &[T]) -> bool
        ensures { result ≡ any_locked_by_other self.now seat.number (map T.entry_of items.now) }
    {
        items
            .iter()
            .any(|item| locked_by_other(self.row_of(item.entry()), seat))
    }

    /// Whether one of the entries has a row time above a start.
    pub fn any_stale(&self, start: u32, reads: &[u16]) -> bool
        ensures { result ≡ any_stale self.now start reads.now }
    {
        reads.iter().any(|entry| self.row_of(*entry).time > start)
    }

    /// Locks the drafted entries for a seat.
    pub fn take_locks(&mut self, seat: SeatNumber, drafts: &[Draft])
        ensures { self.new ≡ take_locks self.old seat.number drafts.now }
    {
        for draft in drafts {
            let row = self.row_of(draft.entry);
            let lock = Some(seat.number);
            self.set_row(draft.entry, Row { lock, ..row });
        }
    }

    /// Releases the drafted entries that a seat has locked.
    pub fn release_locks(&mut self, seat: SeatNumber, drafts: &[Draft])
        ensures { self.new ≡ release_locks self.old seat.number drafts.now }
    {
        for draft in drafts {
            let row = self.row_of(draft.entry);
            let lock = unless(row.lock, seat);
            self.set_row(draft.entry, Row { lock, ..row });
        }
    }
}
