//! The number of a seat.
ghost use Rattle.std.specs.Prelude.{◌<◌};
ghost use Rattle.rules.specs.declared.limits.TheConstants.{SEATS};

use cards::refusal::Refusal;
use rules::limits::SEATS;

/// A number below 16. It is tested where it is made, and nowhere again.
#[derive(Clone, Copy, PartialEq, Eq, Debug)]
pub struct SeatNumber {
    pub number: u16,
    pub ghost below: { number < SEATS },
}

impl TryFrom<u16> for SeatNumber {
    type Error = Refusal;

    ghost use Rattle.table.specs.SeatNumbers.{SeatGiven};

    ghost try_from_gives = { SeatGiven };

    fn try_from(number: u16) -> Result<SeatNumber, Refusal> {
        if usize::from(number) >= SEATS {
            return Err(Refusal::Seat);
        }
        Ok(SeatNumber { number })
    }
}

impl From<SeatNumber> for usize {
    ghost use Rattle.std.specs.Prelude.{◌≡◌};

    ghost from_gives = { λ seat n. n ≡ seat.number };

    fn from(seat: SeatNumber) -> usize {
        usize::from(seat.number)
    }
}
