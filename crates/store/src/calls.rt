//! The calls. Each does what its rule says, and answers what its rule says; declined, it leaves the store, its keeper and all memory as they
//! were. Where several refusals apply, the one with the least number is given.
ghost use Rattle.std.specs.Prelude.{◌≡◌};
ghost use Rattle.rules.specs.Rules.{proof, edit, read_edit, read, write, lock, stamp, put, settle, drop_edit, end, collect};
ghost use Rattle.rules.specs.Seat.{draft_of};
ghost use Rattle.rules.specs.State.{seat as seat-of};

use crate::store::Store;
use cards::card::Card;
use cards::draft::Draft;
use cards::refusal::Refusal;
use keepers::keeper::Keeper;
use keepers::version::Version;
use rules::limits::LAST_TIME;
use rules::row::Row;
use rules::stage::Stage;
use table::rows::locked_by_other;
use table::seat::Seat;
use table::seat_number::SeatNumber;

impl<K: Keeper> Store<K> {
    ghost use Rattle.store.specs.View.{Does};

    /// Opens a proof on an idle seat, and answers its start, which is the ready point: up to it everything that was stamped is put.
    ///
    /// Declined by `Seat` above 15, and by `Stage` where the seat is not idle.
    pub fn proof(&mut self, seat: u16) -> Result<u32, Refusal>
        ensures call { Does K.means (proof seat) self.old self.new result }
        ensures keeper { self.new.keeper ≡ self.old.keeper }
    {
        let seat = SeatNumber::try_from(seat)?;
        let table = &mut self.table;
        let Stage::Idle = table.seat(seat).stage() else {
            return Err(Refusal::Stage);
        };
        let start = table.ready();
        table.seats[usize::from(seat)].begin(Stage::Proof { start });
        Ok(start)
    }

    /// Opens an edit on an idle seat, and answers its start, which is the clock.
    ///
    /// Declined by `Seat` above 15, and by `Stage` where the seat is not idle.
    pub fn edit(&mut self, seat: u16) -> Result<u32, Refusal>
        ensures call { Does K.means (edit seat) self.old self.new result }
        ensures keeper { self.new.keeper ≡ self.old.keeper }
    {
        let seat = SeatNumber::try_from(seat)?;
        let table = &mut self.table;
        let Stage::Idle = table.seat(seat).stage() else {
            return Err(Refusal::Stage);
        };
        let start = table.clock;
        table.seats[usize::from(seat)].begin(Stage::Edit { start });
        Ok(start)
    }

    // What an edit reads: its own draft, or the newest card, and then the entry joins its reading list once.
    fn read_edit(&mut self, seat: SeatNumber, entry: u16, start: u32) -> Result<Card, Refusal>
        ensures call { Does K.means
            (λ s. read_edit seat.number entry start s (draft_of (seat-of s seat.number).drafts entry))
            self.old self.new result }
        ensures keeper { self.new.keeper ≡ self.old.keeper }
    {
        if let Some(card) = self.table.seat(seat).draft_of(entry) {
            return Ok(card);
        }
        let row = self.table.rows.row_of(entry);
        if locked_by_other(row, seat) {
            return Err(Refusal::Held);
        }
        if row.time > start {
            return Err(Refusal::Stale);
        }
        self.table.seats[usize::from(seat)].note(entry)?;
        Ok(self.card_at(entry, row.time))
    }

    /// Reads an entry's card. A proof reads the card of its start. An edit reads its own draft, or without one the newest card, and then the
    /// entry joins its reading list, once.
    ///
    /// Declined by `Seat` above 15, by `Stage` where neither a proof nor an edit is open on the seat, and by `Entry` for an entry that the
    /// store does not have; an edit that has not drafted the entry also by `Held` where another seat has it locked, by `Stale` where it has
    /// changed since the edit's start, and by `List` where it would be the 33rd read.
    pub fn read(&mut self, seat: u16, entry: u16) -> Result<Card, Refusal>
        ensures call { Does K.means (read seat entry) self.old self.new result }
        ensures keeper { self.new.keeper ≡ self.old.keeper }
    {
        let seat = SeatNumber::try_from(seat)?;
        let stage = self.table.seat(seat).stage();
        let (Stage::Proof { start } | Stage::Edit { start }) = stage else {
            return Err(Refusal::Stage);
        };
        self.table.check_entry(entry)?;
        if let Stage::Edit { .. } = stage {
            return self.read_edit(seat, entry, start);
        }
        Ok(self.card_at(entry, start))
    }

    /// Drafts a card for an entry, in place of the edit's earlier draft of it or behind its others.
    ///
    /// Declined by `Seat` above 15, by `Stage` where no edit is open on the seat, by `Entry` for an entry that the store does not have, by
    /// `Misfit` for a card with a field that the entry's kind may not bear, and by `List` where it would be the 17th draft.
    pub fn write(&mut self, seat: u16, entry: u16, card: Card) -> Result<(), Refusal>
        ensures call { Does K.means (write seat entry card) self.old self.new result }
        ensures keeper { self.new.keeper ≡ self.old.keeper }
    {
        let seat = SeatNumber::try_from(seat)?;
        let table = &mut self.table;
        let Stage::Edit { .. } = table.seat(seat).stage() else {
            return Err(Refusal::Stage);
        };
        table.check_entry(entry)?;
        if !table.fits(entry, card) {
            return Err(Refusal::Misfit);
        }
        table.seats[usize::from(seat)].draft(entry, card)
    }

    /// Locks the entries that an edit has drafted, all or none, and answers how many.
    ///
    /// Declined by `Seat` above 15, by `Stage` where no edit is open on the seat, and by `Held` where another seat has one of them locked.
    pub fn lock(&mut self, seat: u16) -> Result<u32, Refusal>
        ensures call { Does K.means (lock seat) self.old self.new result }
        ensures keeper { self.new.keeper ≡ self.old.keeper }
    {
        let seat = SeatNumber::try_from(seat)?;
        let table = &mut self.table;
        let Stage::Edit { start } = table.seat(seat).stage() else {
            return Err(Refusal::Stage);
        };
        let drafts = table.seat(seat).drafts();
        if table.rows.any_locked_by_other(seat, drafts) {
            return Err(Refusal::Held);
        }
        let seats: &[Seat] = &table.seats;
        let drafts = seats[usize::from(seat)].drafts();
        table.rows.take_locks(seat, drafts);
        table.seats[usize::from(seat)].go_on(Stage::Locked { start });
        Ok(table.seat(seat).drafts_len())
    }

    /// Takes the next time for a locked edit whose reads still stand, and answers it.
    ///
    /// Declined by `Seat` above 15, by `Stage` where no edit is locked on the seat, by `Held` where another seat has an entry locked that the
    /// edit has read, by `Stale` where one of them has changed since its start, by `Places` where the keeper lacks places for its drafts
    /// and those that other stamped edits have still to put, and by `Clock` where the clock is 1,000,000.
    pub fn stamp(&mut self, seat: u16) -> Result<u32, Refusal>
        ensures call { Does K.means (stamp seat) self.old self.new result }
        ensures keeper { self.new.keeper ≡ self.old.keeper }
    {
        let seat = SeatNumber::try_from(seat)?;
        let table = &mut self.table;
        let Stage::Locked { start } = table.seat(seat).stage() else {
            return Err(Refusal::Stage);
        };
        let reads = table.seat(seat).reads();
        if table.rows.any_locked_by_other(seat, reads) {
            return Err(Refusal::Held);
        }
        if table.rows.any_stale(start, reads) {
            return Err(Refusal::Stale);
        }
        if table.lacks_places(seat, self.keeper.spare()) {
            return Err(Refusal::Places);
        }
        if table.clock >= LAST_TIME {
            return Err(Refusal::Clock);
        }
        let time = table.clock + 1;
        table.clock = time;
        table.seats[usize::from(seat)].go_on(Stage::Stamped { time, put: 0 });
        Ok(time)
    }

    /// Hands a stamped edit's next draft to the keeper, gives its row the edit's time, unlocks it, and answers how many drafts are left.
    ///
    /// Declined by `Seat` above 15, and by `Stage` where no edit is stamped on the seat, or none of its drafts is left.
    pub fn put(&mut self, seat: u16) -> Result<u32, Refusal>
        ensures call { Does K.means (put seat) self.old self.new result }
    {
        let seat = SeatNumber::try_from(seat)?;
        let table = &mut self.table;
        let Stage::Stamped { time, put } = table.seat(seat).stage() else {
            return Err(Refusal::Stage);
        };
        let count = table.seat(seat).drafts_len();
        let draft = table.seat(seat).draft_at(put).ok_or(Refusal::Stage)?;
        let Draft { entry, card } = draft;
        self.keeper.add(Version { entry, time, card })?;
        table.rows.set_row(entry, Row { time, lock: None });
        let put = put + 1;
        table.seats[usize::from(seat)].go_on(Stage::Stamped { time, put });
        Ok(count - put)
    }

    /// Closes a stamped edit, and answers its time. A proof that begins afterwards reads it.
    ///
    /// Declined by `Seat` above 15, by `Stage` where no edit is stamped on the seat, by `Unput` where a draft is left to put, and by `Waiting`
    /// where an edit with a lesser time has one left.
    pub fn settle(&mut self, seat: u16) -> Result<u32, Refusal>
        ensures call { Does K.means (settle seat) self.old self.new result }
        ensures keeper { self.new.keeper ≡ self.old.keeper }
    {
        let seat = SeatNumber::try_from(seat)?;
        let table = &mut self.table;
        let Stage::Stamped { time, put } = table.seat(seat).stage() else {
            return Err(Refusal::Stage);
        };
        if put < table.seat(seat).drafts_len() {
            return Err(Refusal::Unput);
        }
        if table.ready() < time {
            return Err(Refusal::Waiting);
        }
        table.seats[usize::from(seat)].begin(Stage::Idle);
        Ok(time)
    }

    /// Gives an open or a locked edit up, and releases its locks. (`drop` itself is a word of the language.)
    ///
    /// Declined by `Seat` above 15, and by `Stage` where no edit is open or locked on the seat.
    pub fn drop_edit(&mut self, seat: u16) -> Result<(), Refusal>
        ensures call { Does K.means (drop_edit seat) self.old self.new result }
        ensures keeper { self.new.keeper ≡ self.old.keeper }
    {
        let seat = SeatNumber::try_from(seat)?;
        let table = &mut self.table;
        let (Stage::Edit { .. } | Stage::Locked { .. }) = table.seat(seat).stage() else {
            return Err(Refusal::Stage);
        };
        let seats: &[Seat] = &table.seats;
        let drafts = seats[usize::from(seat)].drafts();
        table.rows.release_locks(seat, drafts);
        table.seats[usize::from(seat)].begin(Stage::Idle);
        Ok(())
    }

    /// Closes a proof.
    ///
    /// Declined by `Seat` above 15, and by `Stage` where no proof is open on the seat.
    pub fn end(&mut self, seat: u16) -> Result<(), Refusal>
        ensures call { Does K.means (end seat) self.old self.new result }
        ensures keeper { self.new.keeper ≡ self.old.keeper }
    {
        let seat = SeatNumber::try_from(seat)?;
        let table = &mut self.table;
        let Stage::Proof { .. } = table.seat(seat).stage() else {
            return Err(Refusal::Stage);
        };
        table.seats[usize::from(seat)].begin(Stage::Idle);
        Ok(())
    }

    /// Removes an entry's oldest version if no proof can need it, which is so where the next one has a time that is not above the floor: the
    /// ready point, or the start of an open proof if that is less. Answers the time of the version.
    ///
    /// Declined by `Entry` for an entry that the store does not have, and by `Needed` where there is no such version.
    pub fn collect(&mut self, entry: u16) -> Result<u32, Refusal>
        ensures call { Does K.means (collect entry) self.old self.new result }
    {
        self.table.check_entry(entry)?;
        let floor = self.table.floor();
        let oldest = self.next_time(entry, 0, floor).ok_or(Refusal::Needed)?;
        self.next_time(entry, oldest, floor).ok_or(Refusal::Needed)?;
        // It was found just now, so it is there.
        let _ = self.keeper.remove(entry, oldest);
        Ok(oldest)
    }
}
