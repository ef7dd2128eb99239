//! A draft.
use crate::card::Card;

/// A card for an entry that has no time yet.
#[derive(Clone, Copy, PartialEq, Eq, Debug)]
pub struct Draft {
    pub entry: u16,
    pub card: Card,
}
