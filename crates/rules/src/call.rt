//! What a store is asked.
ghost use Rattle.std.specs.Prelude.{◌≡◌};
ghost use Rattle.rules.specs.Words.{call_told};

use cards::card::Card;

/// The calls with their arguments. Seat and entry numbers are taken as they come, and judged by the rules.
#[derive(Clone, Copy, PartialEq, Eq, Debug)]
pub enum Call {
    /// Opens a proof.
    Proof { seat: u16 },
    /// Opens an edit.
    Edit { seat: u16 },
    /// Reads an entry's card.
    Read { seat: u16, entry: u16 },
    /// Drafts a card for an entry.
    Write { seat: u16, entry: u16, card: Card },
    /// Locks the drafted entries.
    Lock { seat: u16 },
    /// Takes the next time.
    Stamp { seat: u16 },
    /// Hands the next draft to the keeper.
    Put { seat: u16 },
    /// Closes a stamped edit.
    Settle { seat: u16 },
    /// Gives an edit up.
    Drop { seat: u16 },
    /// Closes a proof.
    End { seat: u16 },
    /// Removes an entry's oldest version that no proof can need.
    Collect { entry: u16 },
}

impl Call {
    /// Its place among the calls, from 1, in the order of the pages. No `From`: a call is more than its number.
    pub fn number(self) -> u8
        ensures { result ≡ (call_told self).number }
    {
        match self {
            Call::Proof { .. } => 1,
            Call::Edit { .. } => 2,
            Call::Read { .. } => 3,
            Call::Write { .. } => 4,
            Call::Lock { .. } => 5,
            Call::Stamp { .. } => 6,
            Call::Put { .. } => 7,
            Call::Settle { .. } => 8,
            Call::Drop { .. } => 9,
            Call::End { .. } => 10,
            Call::Collect { .. } => 11,
        }
    }
}
