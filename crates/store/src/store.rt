//! A store: made over a keeper, and looked at without a call.
ghost use Rattle.std.specs.Prelude.{◌≡◌, []};
ghost use Rattle.cards.specs.Versions.{Empty};
ghost use Rattle.rules.specs.NewStore.{new_store};
ghost use Rattle.rules.specs.Runs.{Reached};
ghost use Rattle.rules.specs.State.{seat as seat-of, row as row-of, next_time};
ghost use Rattle.rules.specs.Rules.{card_at};

use cards::card::Card;
use cards::draft::Draft;
use keepers::keeper::Keeper;
use rules::row::Row;
use rules::sizes::Sizes;
use rules::stage::Stage;
use table::seat::Seat;
use table::table::Table;

/// A store: sixteen seats, a row for each entry, a clock, and the keeper of its versions, whichever the host has chosen.
#[derive(Drop)]
pub struct Store<K> {
    pub(crate) table: Table,
    pub(crate) keeper: K,
}

impl<K: Keeper> Store<K> {
    ghost use Rattle.store.specs.View.{view};

    /// A new store over a keeper. With sizes that no store may have, or over a keeper that holds a version, it has no entries; `check` tells
    /// beforehand. Over an empty keeper its history begins.
    pub fn new(keeper: K, sizes: Sizes) -> Store<K>
        ensures state { view K.means result ≡ new_store sizes (K.means keeper) }
        ensures keeper { result.keeper ≡ keeper }
        ensures history { Empty (K.means keeper).kept → Reached [] (view K.means result) }
    {
        let sizes = if keeper.held() == 0 {
            sizes
        } else {
            Sizes::default()
        };
        Store {
            table: Table::new(sizes),
            keeper,
        }
    }

    /// Gives the keeper back.
    pub fn into_keeper(self) -> K
        ensures { result ≡ self.keeper }
    {
        let Store { table: _, keeper } = self;
        keeper
    }

    /// What a seat is doing; a seat above 15 is idle.
    pub fn stage(&self, seat: u16) -> Stage
        ensures { result ≡ (seat-of (view K.means self.now) seat).stage }
    {
        let seats: &[Seat] = &self.table.seats;
        seats
            .get(usize::from(seat))
            .map_or(Stage::Idle, |seat| seat.stage())
    }

    /// The reading list of a seat's edit, in order of arrival; none of a seat above 15.
    pub fn reads(&self, seat: u16) -> &[u16]
        ensures { result.now ≡ (seat-of (view K.means self.now) seat).reads }
    {
        let seats: &[Seat] = &self.table.seats;
        match seats.get(usize::from(seat)) {
            Some(seat) => seat.reads(),
            None => &[],
        }
    }

    /// The drafts of a seat's edit, in order of arrival; none of a seat above 15.
    pub fn drafts(&self, seat: u16) -> &[Draft]
        ensures { result.now ≡ (seat-of (view K.means self.now) seat).drafts }
    {
        let seats: &[Seat] = &self.table.seats;
        match seats.get(usize::from(seat)) {
            Some(seat) => seat.drafts(),
            None => &[],
        }
    }

    /// The time and the lock of an entry; neither, where there is no such entry.
    pub fn row(&self, entry: u16) -> Row
        ensures { result ≡ row-of (view K.means self.now) entry }
    {
        self.table.rows.row_of(entry)
    }

    /// The last time that was given.
    pub fn clock(&self) -> u32
        ensures { result ≡ (view K.means self.now).clock }
    {
        self.table.clock
    }

    /// The keeper, which only put and collect change.
    pub fn keeper(&self) -> &K
        ensures { result.now ≡ self.now.keeper }
    {
        &self.keeper
    }

    // The card of the newest version of an entry up to a time, blank without one.
    pub(crate) fn card_at(&self, entry: u16, time: u32) -> Card
        ensures { result ≡ card_at (view K.means self.now) entry time }
    {
        self.keeper
            .find(entry, time)
            .map_or(Card::blank(), |version| version.card)
    }

    // The least time above one and up to another at which an entry has a version.
    pub(crate) fn next_time(&self, entry: u16, time: u32, up_to: u32) -> Option<u32>
        ensures { result ≡ next_time ((K.means self.now.keeper).kept entry) time up_to }
    {
        self.keeper.after(entry, time).filter(|next| *next <= up_to)
    }
}
