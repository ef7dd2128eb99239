//! What is left of an edit that could not be saved.
ghost use Rattle.std.specs.Prelude.{◌≡◌};
ghost use Rattle.saving.specs.Saved.{left_open, left_locked, left_stamped};

use cards::refusal::Refusal;
use tickets::declined::Declined;
use tickets::edit::EditTicket;
use tickets::locked::LockedTicket;
use tickets::stamped::StampedTicket;

/// The ticket of the stage that the edit came to, with why the next call was declined, unless the ticket was taken in. It cannot be let go
/// unread, since the ticket may be a stamped one: its holder puts what is left and settles, and where it is told `Waiting`, tries again later.
pub enum Unsaved {
    Gone,
    Open { why: Refusal, ticket: EditTicket },
    Locked { why: Refusal, ticket: LockedTicket },
    Stamped { why: Refusal, ticket: StampedTicket },
}

impl From<Declined<EditTicket>> for Unsaved {
    ghost from_gives = { λ declined left. left ≡ left_open declined };

    fn from(declined: Declined<EditTicket>) -> Unsaved {
        match declined {
            Declined::Back { why, ticket } => Unsaved::Open { why, ticket },
            Declined::TakenIn => Unsaved::Gone,
        }
    }
}

impl From<Declined<LockedTicket>> for Unsaved {
    ghost from_gives = { λ declined left. left ≡ left_locked declined };

    fn from(declined: Declined<LockedTicket>) -> Unsaved {
        match declined {
            Declined::Back { why, ticket } => Unsaved::Locked { why, ticket },
            Declined::TakenIn => Unsaved::Gone,
        }
    }
}

impl From<Declined<StampedTicket>> for Unsaved {
    ghost from_gives = { λ declined left. left ≡ left_stamped declined };

    fn from(declined: Declined<StampedTicket>) -> Unsaved {
        match declined {
            Declined::Back { why, ticket } => Unsaved::Stamped { why, ticket },
            Declined::TakenIn => Unsaved::Gone,
        }
    }
}
