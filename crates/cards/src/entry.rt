//! The number of an entry: a letter, a mark or a pair.
ghost use Rattle.std.specs.Prelude.{◌<◌};
ghost use Rattle.cards.specs.declared.entry.TheConstants.{ENTRIES};

use crate::refusal::Refusal;

/// The most entries that a store may have.
pub const ENTRIES: usize = 1024;

/// A number below 1,024. It is tested where it is made, and nowhere again: a number of 1,024 or more is declined by `Entry`.
#[derive(Clone, Copy, PartialEq, Eq, Debug)]
pub struct EntryNumber {
    pub number: u16,
    pub ghost below: { number < ENTRIES },
}

impl TryFrom<u16> for EntryNumber {
    type Error = Refusal;

    ghost use Rattle.cards.specs.Entries.{EntryGiven};

    ghost try_from_gives = { EntryGiven };

    fn try_from(number: u16) -> Result<EntryNumber, Refusal> {
        if usize::from(number) >= ENTRIES {
            return Err(Refusal::Entry);
        }
        Ok(EntryNumber { number })
    }
}

impl From<EntryNumber> for usize {
    ghost use Rattle.std.specs.Prelude.{◌≡◌};

    ghost from_gives = { λ entry n. n ≡ entry.number };

    fn from(entry: EntryNumber) -> usize {
        usize::from(entry.number)
    }
}
