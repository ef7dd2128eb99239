//! The text of a card, for people.
ghost use Rattle.std.specs.Prelude.{◌≡◌, Some, map};
ghost use Rattle.cards.specs.Shown.{fields_of, shown};

use crate::card::Card;
use std::fmt;

// The fields by name, in the order of their bits.
fn fields(card: Card) -> [(&'static str, Option<i16>); 6]
    ensures { map (λ field. (field.0.now, field.1)) result ≡ fields_of card }
{
    [
        ("advance", card.advance),
        ("left bearing", card.left_bearing),
        ("anchor across", card.anchor_across),
        ("anchor up", card.anchor_up),
        ("mark class", card.mark_class),
        ("kern", card.kern),
    ]
}

// Each field that is there, by its name and number, with a comma between two; `blank` where there is none.
impl fmt::Display for Card {
    ghost output = { λ card. Some (shown card) };

    fn fmt<W: fmt::Write>(&self, f: &mut fmt::Formatter<W>) -> fmt::Result {
        let mut before = "";
        for (name, value) in fields(*self) {
            if let Some(number) = value {
                write!(f, "{before}{name} {number}")?;
                before = ", ";
            }
        }
        if before.is_empty() {
            return f.write_str("blank");
        }
        Ok(())
    }
}
