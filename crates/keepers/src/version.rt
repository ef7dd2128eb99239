//! Versions.
use crate::search::BearsEntry;
use cards::card::Card;

/// A version: the card that an entry has from a time on, until its next version's time.
#[derive(Clone, Copy, Default, PartialEq, Eq, Debug)]
pub struct Version {
    pub entry: u16,
    pub time: u32,
    pub card: Card,
}

impl BearsEntry for Version {
    ghost entry_of = { λ v. v.entry };

    ghost time_of = { λ v. v.time };

    fn entry(&self) -> u16 {
        self.entry
    }

    fn time(&self) -> u32 {
        self.time
    }
}
