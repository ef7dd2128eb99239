//! Drafts as the search sees them.
use crate::search::BearsEntry;
use cards::draft::Draft;

impl BearsEntry for Draft {
    ghost entry_of = { λ d. d.entry };

    ghost time_of = { λ _. 0 };

    fn entry(&self) -> u16 {
        self.entry
    }

    fn time(&self) -> u32 {
        0
    }
}
