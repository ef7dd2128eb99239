// A store that is written plainly, from the rules in words alone. Its versions lie in order of arrival, and it keeps no rows: what a
// row would say is looked up among the versions and the seats.
use crate::seat::Seat;
use cards::card::Card;
use keepers::version::Version;
use rules::row::Row;
use rules::stage::Stage;
use std::alloc::{AllocError, Global};

// How many seats there are.
pub const SEATS: u16 = 16;

// How many entries a store has at most.
pub const ENTRIES: u16 = 1024;

#[derive(Drop)]
pub struct Plain {
    pub letters: u16,
    pub marks: u16,
    pub pairs: u16,
    pub places: usize,
    pub clock: u32,
    pub seats: Vec<Seat>,
    pub versions: Vec<Version>,
}

fn bit(field: Option<i16>, value: u8) -> u8 {
    if field.is_some() { value } else { 0 }
}

// Which fields a card has.
pub fn map_of(card: Card) -> u8 {
    bit(card.advance, 1)
        | bit(card.left_bearing, 2)
        | bit(card.anchor_across, 4)
        | bit(card.anchor_up, 8)
        | bit(card.mark_class, 16)
        | bit(card.kern, 32)
}

impl Plain {
    pub fn new(alloc: Global, sizes: [u16; 3], places: usize) -> Result<Plain, AllocError> {
        let mut seats = Vec::new(alloc);
        for _ in 0..SEATS {
            seats.push(Seat::idle(alloc))?;
        }
        let sum = sizes[0] as u32 + sizes[1] as u32 + sizes[2] as u32;
        let [letters, marks, pairs] = if sum <= u32::from(ENTRIES) {
            sizes
        } else {
            [0, 0, 0]
        };
        Ok(Plain {
            letters,
            marks,
            pairs,
            places,
            clock: 0,
            seats,
            versions: Vec::new(alloc),
        })
    }

    // How many entries there are.
    pub fn entries(&self) -> u16 {
        self.letters
            .saturating_add(self.marks)
            .saturating_add(self.pairs)
    }

    // The fields that the entry's kind may bear.
    pub fn kind_map(&self, entry: u16) -> u8 {
        if entry < self.letters {
            15
        } else if entry < self.letters.saturating_add(self.marks) {
            28
        } else {
            32
        }
    }

    pub fn seat(&self, number: u16) -> Option<&Seat> {
        self.seats.get(number as usize)
    }

    pub fn stage(&self, number: u16) -> Stage {
        self.seat(number).map_or(Stage::Idle, |seat| seat.stage)
    }

    // How many drafts of the seat are not put yet.
    pub fn unput(&self, number: u16) -> usize {
        self.seat(number).map_or(0, |seat| seat.unput())
    }

    // Adds the entries of the seat's drafts and reads to a list.
    pub fn note_entries(&self, number: u16, list: &mut Vec<u16>) -> Result<(), AllocError> {
        match self.seat(number) {
            Some(seat) => seat.note_entries(list),
            None => Ok(()),
        }
    }

    // The version of the entry with the greatest time up to the stated one.
    pub fn newest(&self, entry: u16, up_to: u32) -> Option<Version> {
        let mut found: Option<Version> = None;
        for held in &self.versions {
            let above = found.map_or(0, |other| other.time);
            if held.entry == entry && held.time <= up_to && held.time > above {
                found = Some(*held);
            }
        }
        found
    }

    // The card of that version; blank if there is none.
    pub fn card_at(&self, entry: u16, up_to: u32) -> Card {
        self.newest(entry, up_to)
            .map_or(Card::default(), |held| held.card)
    }

    // The least time of a version of the entry above the stated one.
    pub fn next_time(&self, entry: u16, time: u32) -> Option<u32> {
        let mut found: Option<u32> = None;
        for held in &self.versions {
            let below = found.unwrap_or(u32::MAX);
            if held.entry == entry && held.time > time && held.time < below {
                found = Some(held.time);
            }
        }
        found
    }

    // The seat that has the entry locked.
    pub fn locker(&self, entry: u16) -> Option<u16> {
        for number in 0..SEATS {
            if self.seat(number).is_some_and(|seat| seat.has_locked(entry)) {
                return Some(number);
            }
        }
        None
    }

    pub fn row_time(&self, entry: u16) -> u32 {
        self.newest(entry, u32::MAX).map_or(0, |held| held.time)
    }

    pub fn row(&self, entry: u16) -> Row {
        Row {
            time: self.row_time(entry),
            lock: self.locker(entry),
        }
    }

    // The ready point: below the time of each stamped edit that is not put yet.
    pub fn ready(&self) -> u32 {
        let mut least = self.clock;
        for seat in &self.seats {
            if let Stage::Stamped { time, .. } = seat.stage
                && seat.unput() > 0
            {
                least = least.min(time.saturating_sub(1));
            }
        }
        least
    }

    // The floor: the ready point, or the start of an older open proof.
    pub fn floor(&self) -> u32 {
        let mut least = self.ready();
        for seat in &self.seats {
            if let Stage::Proof { start } = seat.stage {
                least = least.min(start);
            }
        }
        least
    }

    pub fn spare(&self) -> usize {
        self.places.saturating_sub(self.versions.len())
    }
}
