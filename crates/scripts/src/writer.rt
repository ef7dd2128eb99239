//! Writing a call as a line, and the line that answers one.
ghost use Rattle.std.specs.Prelude.{◌≡◌, ◌+◌, ◌<◌, ◌≤◌, ◌++◌, length, Ok};
ghost use Rattle.scripts.specs.Lines.{read};
ghost use Rattle.scripts.specs.Texts.{letter_of, numbers_of, call_text, outcome_text, given_text, answer_text, unread_text};
ghost use Rattle.scripts.specs.declared.line.TheConstants.{MOST_BYTES};

use crate::line::{byte, card_text, spaced};
pub use crate::line::{Line, MOST_BYTES};
use cards::refusal::Refusal;
use rules::answer::Answer;
use rules::call::Call;

// The letter that names a call.
fn letter_of(call: Call) -> char
    ensures value { result ≡ letter_of call }
    ensures ascii { letter_of call < 128 }
{
    match call {
        Call::Proof { .. } => 'p',
        Call::Edit { .. } => 'e',
        Call::Read { .. } => 'r',
        Call::Write { .. } => 'w',
        Call::Lock { .. } => 'l',
        Call::Stamp { .. } => 's',
        Call::Put { .. } => 'u',
        Call::Settle { .. } => 't',
        Call::Drop { .. } => 'd',
        Call::End { .. } => 'q',
        Call::Collect { .. } => 'c',
    }
}

// The numbers of a call.
fn numbers_of(line: &mut Line, call: Call)
    requires { length line.old.bytes + 58 ≤ MOST_BYTES }
    ensures text { line.new.bytes ≡ line.old.bytes ++ numbers_of call }
    ensures len { length line.new.bytes ≤ MOST_BYTES }
{
    match call {
        Call::Read { seat, entry } => {
            spaced(line, seat);
            spaced(line, entry);
        }
        Call::Write { seat, entry, card } => {
            spaced(line, seat);
            spaced(line, entry);
            card_text(line, card);
        }
        Call::Collect { entry } => spaced(line, entry),
        Call::Proof { seat }
        | Call::Edit { seat }
        | Call::Lock { seat }
        | Call::Stamp { seat }
        | Call::Put { seat }
        | Call::Settle { seat }
        | Call::Drop { seat }
        | Call::End { seat } => spaced(line, seat),
    }
}

/// The line of a call, without its end. It is read as that call.
#[tactic(auto, using(crate::proofs::Back::read_back))]
pub fn call_line(call: Call) -> Line
    ensures text { result.bytes ≡ call_text call }
    ensures back { read result.bytes ≡ Ok call }
{
    let mut line = Line::new();
    byte(&mut line, letter_of(call));
    numbers_of(&mut line, call);
    line
}

// What a granted call gives.
fn given(line: &mut Line, answer: Answer)
    requires { length line.old.bytes + 46 ≤ MOST_BYTES }
    ensures text { line.new.bytes ≡ line.old.bytes ++ given_text answer }
    ensures len { length line.new.bytes ≤ length line.old.bytes + 46 }
{
    match answer {
        Answer::Number(number) => spaced(line, number),
        Answer::Card(card) => card_text(line, card),
        Answer::Done => {}
    }
}

// 0 and what a granted call gives, or the number of the refusal.
fn outcome(line: &mut Line, answer: Result<Answer, Refusal>)
    requires { length line.old.bytes + 50 ≤ MOST_BYTES }
    ensures text { line.new.bytes ≡ line.old.bytes ++ outcome_text answer }
    ensures len { length line.new.bytes ≤ length line.old.bytes + 50 }
{
    match answer {
        Ok(answer) => {
            spaced(line, 0u8);
            given(line, answer);
        }
        Err(why) => spaced(line, why.number()),
    }
}

/// The line that answers a call, with its end: the call's letter, and 0 with what it gives or the refusal's number.
pub fn answer_line(call: Call, answer: Result<Answer, Refusal>) -> Line
    ensures text { result.bytes ≡ answer_text call answer }
    ensures short { length (answer_text call answer) ≤ MOST_BYTES }
{
    let mut line = Line::new();
    byte(&mut line, letter_of(call));
    outcome(&mut line, answer);
    byte(&mut line, '\n');
    line
}

/// The line that answers a line that cannot be read, with its end; it tells the place of the first word that does not fit.
pub fn unread_line(place: u32) -> Line
    ensures text { result.bytes ≡ unread_text place }
    ensures short { length (unread_text place) ≤ MOST_BYTES }
{
    let mut line = Line::new();
    byte(&mut line, '?');
    spaced(&mut line, Refusal::Line.number());
    spaced(&mut line, place);
    byte(&mut line, '\n');
    line
}
