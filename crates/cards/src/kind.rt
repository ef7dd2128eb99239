//! The kinds of entry, and which fields each may bear.
ghost use Rattle.std.specs.Prelude.{◌≡◌, ℕ};
ghost use Rattle.cards.specs.Cards.{map_of};
ghost use Rattle.cards.specs.Kinds.{letter_map, mark_map, pair_map, fits_in};

use crate::card::Card;

/// A kind of entry.
pub trait Kind {
    // The constant as clauses name it.
    ghost MAP: { ℕ };

    /// The bit map of the fields that it may bear.
    const MAP: u8;
}

/// A letter bears an advance, a left bearing and an anchor.
pub struct Letter;

/// A mark bears an anchor and a mark class.
pub struct Mark;

/// A pair bears a kern.
pub struct Pair;

impl Kind for Letter {
    ghost MAP = { letter_map };

    const MAP: u8 = 15;
}

impl Kind for Mark {
    ghost MAP = { mark_map };

    const MAP: u8 = 28;
}

impl Kind for Pair {
    ghost MAP = { pair_map };

    const MAP: u8 = 32;
}

/// Whether a card has only fields that entries of this kind may bear.
pub fn fits<K: Kind>(card: Card) -> bool
    ensures { result ≡ fits_in K.MAP (map_of card) }
{
    let map = card.map();
    map & K::MAP == map
}
