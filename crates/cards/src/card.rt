//! A card: what one entry looks like at one moment.
ghost use Rattle.std.specs.Prelude.{◌≡◌, ◌<◌};
ghost use Rattle.cards.specs.Cards.{blank_card, bit, map_of};

/// What one entry looks like at one moment: six fields, each a number in font units or absent.
#[derive(Clone, Copy, Default, PartialEq, Eq, Debug)]
pub struct Card {
    pub advance: Option<i16>,
    pub left_bearing: Option<i16>,
    pub anchor_across: Option<i16>,
    pub anchor_up: Option<i16>,
    pub mark_class: Option<i16>,
    pub kern: Option<i16>,
}

// The value of a field's bit: 0 where the field is absent.
fn bit_of(field: Option<i16>, value: u8) -> u8
    ensures { result ≡ bit field value }
{
    field.map_or(0, |_| value)
}

impl Card {
    /// The card without a field.
    pub fn blank() -> Card
        ensures { result ≡ blank_card }
    {
        Card::default()
    }

    /// The bit map, below 64: which fields are there. Bit 0 is the advance, and bits 1 to 5 the others in their order.
    pub fn map(self) -> u8
        ensures value { result ≡ map_of self }
        ensures below { result < 64 }
    {
        bit_of(self.advance, 1)
            + bit_of(self.left_bearing, 2)
            + bit_of(self.anchor_across, 4)
            + bit_of(self.anchor_up, 8)
            + bit_of(self.mark_class, 16)
            + bit_of(self.kern, 32)
    }
}
