// The cards that are written.
use cards::card::Card;

pub fn mark_card() -> Card {
    Card {
        anchor_across: Some(120),
        anchor_up: Some(540),
        ..Card::blank()
    }
}

// A letter whose anchor is where the mark's is.
pub fn letter_card(mark: Card) -> Card {
    Card {
        advance: Some(620),
        anchor_across: mark.anchor_across,
        anchor_up: mark.anchor_up,
        ..Card::blank()
    }
}
