//! What a store answers.
ghost use Rattle.std.specs.Prelude.{◌≡◌};
ghost use Rattle.rules.specs.Words.{answer_told};

use cards::card::Card;
use cards::refusal::Refusal;

/// What a call that is granted gives: a number, a card or nothing more.
#[derive(Clone, Copy, PartialEq, Eq, Debug)]
pub enum Answer {
    Number(u32),
    Card(Card),
    Done,
}

/// The number of what a call came to: 0 where it is granted, else the refusal's number.
pub fn number(answer: Result<Answer, Refusal>) -> u8
    ensures { result ≡ (answer_told answer).number }
{
    match answer {
        Ok(_) => 0,
        Err(why) => why.number(),
    }
}
