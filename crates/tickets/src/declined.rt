//! What becomes of a ticket when its call is declined.
ghost use Rattle.std.specs.Prelude.{◌≡◌};
ghost use Rattle.tickets.specs.Given.{is_stage, declined};

use cards::refusal::Refusal;

/// A call that takes a ticket gives it back where it is declined, unless the seat is not in the ticket's stage.
#[derive(Drop)]
pub enum Declined<T> {
    /// Declined by `why`, and the ticket is given back.
    Back { why: Refusal, ticket: T },
    /// Declined by `Stage`, and the ticket is taken in.
    TakenIn,
}

// Whether a refusal is Stage.
pub(crate) fn is_stage(why: Refusal) -> bool
    ensures { result ≡ is_stage why }
{
    matches!(why, Refusal::Stage)
}

impl<T: Drop> Declined<T> {
    // What becomes of a ticket whose call is declined by a refusal.
    pub(crate) fn by(why: Refusal, ticket: T) -> Declined<T>
        ensures { result ≡ declined (is_stage why) ticket why }
    {
        if is_stage(why) {
            return Declined::TakenIn;
        }
        Declined::Back { why, ticket }
    }
}
