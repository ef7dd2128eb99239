//! Reading a line to its call.
ghost use Rattle.std.specs.Prelude.{◌≡◌, IfOk};
ghost use Rattle.scripts.specs.Lines.{alone, read_of, card_of, write_of, call_of, read_words, read};
ghost use Rattle.scripts.specs.Texts.{call_text};
ghost use Rattle.scripts.specs.View.{left_of};

use crate::cursor::Cursor;
use cards::card::Card;
use rules::call::Call;

/// The most bytes of a line that is read, without its end.
pub const MOST_LINE: usize = 80;

// The greatest seat or entry that can be written.
const MOST_NUMBER: u16 = u16::MAX;

// The greatest bit map.
const MOST_MAP: u16 = 63;

// One number and nothing behind it.
#[tactic(auto, unfolding(crate::specs::Lines::alone))]
fn alone(words: &mut Cursor<'_>) -> Result<u16, u32>
    ensures { result ≡ alone (left_of words.old) }
{
    let number = words.number(MOST_NUMBER)?;
    words.end()?;
    Ok(number)
}

// A read behind its letter.
#[tactic(auto, unfolding(crate::specs::Lines::read_of))]
fn read_of(words: &mut Cursor<'_>) -> Result<Call, u32>
    ensures { result ≡ read_of (left_of words.old) }
{
    let seat = words.number(MOST_NUMBER)?;
    let entry = alone(words)?;
    Ok(Call::Read { seat, entry })
}

// The fields whose bits stand in a map, and nothing behind them.
#[tactic(auto, unfolding(crate::specs::Lines::card_of))]
fn card_of(map: u16, words: &mut Cursor<'_>) -> Result<Card, u32>
    ensures { result ≡ card_of map (left_of words.old) }
{
    // Six steps, since a card is six named fields and no array.
    let advance = words.field_if(map % 2 == 1)?;
    let left_bearing = words.field_if(map / 2 % 2 == 1)?;
    let anchor_across = words.field_if(map / 4 % 2 == 1)?;
    let anchor_up = words.field_if(map / 8 % 2 == 1)?;
    let mark_class = words.field_if(map / 16 % 2 == 1)?;
    let kern = words.field_if(map / 32 % 2 == 1)?;
    words.end()?;
    Ok(Card {
        advance,
        left_bearing,
        anchor_across,
        anchor_up,
        mark_class,
        kern,
    })
}

// A write behind its letter.
#[tactic(auto, unfolding(crate::specs::Lines::write_of))]
fn write_of(words: &mut Cursor<'_>) -> Result<Call, u32>
    ensures { result ≡ write_of (left_of words.old) }
{
    let seat = words.number(MOST_NUMBER)?;
    let entry = words.number(MOST_NUMBER)?;
    let map = words.number(MOST_MAP)?;
    let card = card_of(map, words)?;
    Ok(Call::Write { seat, entry, card })
}

// The call that a letter names, with the numbers behind it.
#[tactic(auto, unfolding(crate::specs::Lines::call_of))]
fn call_of(letter: char, words: &mut Cursor<'_>) -> Result<Call, u32>
    ensures { result ≡ call_of letter (left_of words.old) }
{
    match letter {
        'p' => alone(words).map(|seat| Call::Proof { seat }),
        'e' => alone(words).map(|seat| Call::Edit { seat }),
        'r' => read_of(words),
        'w' => write_of(words),
        'l' => alone(words).map(|seat| Call::Lock { seat }),
        's' => alone(words).map(|seat| Call::Stamp { seat }),
        'u' => alone(words).map(|seat| Call::Put { seat }),
        't' => alone(words).map(|seat| Call::Settle { seat }),
        'd' => alone(words).map(|seat| Call::Drop { seat }),
        'q' => alone(words).map(|seat| Call::End { seat }),
        'c' => alone(words).map(|entry| Call::Collect { entry }),
        _ => Err(1),
    }
}

/// The call of a line, which is without its end; or the place of the first word that does not fit, from 1, and 0 for a line that is too
/// long. No call is read from another line than the one that is written for it.
#[tactic(auto, unfolding(crate::specs::Lines::read_words))]
pub fn read_line(line: &[u8]) -> Result<Call, u32>
    ensures answer { result ≡ read line.now }
    ensures line { IfOk result (λ c. line.now ≡ call_text c) }
{
    if line.len() > MOST_LINE {
        return Err(0);
    }
    let mut words = Cursor::new(line);
    let letter = words.letter()?;
    call_of(letter, &mut words)
}
