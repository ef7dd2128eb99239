//! Why a call is declined.
ghost use Rattle.std.specs.Prelude.{◌≡◌, Some};
ghost use Rattle.cards.specs.Refusals.{number_of, word_of};

use std::error::Error;
use std::fmt;

/// Why a call is declined: one case for each word, with its number. Where several apply, the one that stands first here is given.
#[derive(Clone, Copy, PartialEq, Eq, Debug)]
pub enum Refusal {
    /// The seat number is above 15.
    Seat = 1,
    /// The seat is not in a stage that the call serves, or put finds no draft left.
    Stage = 2,
    /// There is no such entry.
    Entry = 3,
    /// The card has a field that the entry's kind may not bear.
    Misfit = 4,
    /// Another seat has locked an entry that the call asks for.
    Held = 5,
    /// An entry that was read has a version later than the edit's start.
    Stale = 6,
    /// The list has no room for one more entry.
    List = 7,
    /// The keeper has too few places for the drafts that are not put and this edit's.
    Places = 8,
    /// The clock is at its end.
    Clock = 9,
    /// A draft of the edit is not put yet.
    Unput = 10,
    /// An edit with a lesser time still has drafts to put.
    Waiting = 11,
    /// The entry has no version that may be collected.
    Needed = 12,
    /// A size is outside its limits.
    Sizes = 13,
    /// A line of a script cannot be read.
    Line = 14,
    /// A packed card begins with no bit map.
    Map = 15,
    /// Bytes or a buffer end too early.
    Short = 16,
    /// The keeper has no place to spare.
    Full = 17,
    /// The time is not later than each that the entry has, or it is 0.
    Order = 18,
}

impl Refusal {
    /// The number that a host or a script is told: 1 to 18. A granted call is told as 0.
    pub fn number(self) -> u8
        ensures { result ≡ number_of self }
    {
        self as u8
    }

    /// Its word, for people: what `Display` writes.
    pub fn word(self) -> &'static str
        ensures { result.now ≡ word_of self }
    {
        match self {
            Refusal::Seat => "seat",
            Refusal::Stage => "stage",
            Refusal::Entry => "entry",
            Refusal::Misfit => "misfit",
            Refusal::Held => "held",
            Refusal::Stale => "stale",
            Refusal::List => "list",
            Refusal::Places => "places",
            Refusal::Clock => "clock",
            Refusal::Unput => "unput",
            Refusal::Waiting => "waiting",
            Refusal::Needed => "needed",
            Refusal::Sizes => "sizes",
            Refusal::Line => "line",
            Refusal::Map => "map",
            Refusal::Short => "short",
            Refusal::Full => "full",
            Refusal::Order => "order",
        }
    }
}

impl From<Refusal> for u8 {
    ghost from_gives = { λ why n. n ≡ number_of why };

    fn from(why: Refusal) -> u8 {
        why.number()
    }
}

impl fmt::Display for Refusal {
    ghost output = { λ why. Some (word_of why) };

    fn fmt<W: fmt::Write>(&self, f: &mut fmt::Formatter<W>) -> fmt::Result {
        f.write_str(self.word())
    }
}

// So that a host's `?` takes it into an error of its own.
impl Error for Refusal {}
