//! A line that is written, and what is appended to it.
ghost use Rattle.std.specs.Prelude.{◌≡◌, ◌+◌, ◌<◌, ◌≤◌, [], ◌∷◌, ◌++◌, length};
ghost use Rattle.scripts.specs.Texts.{spaced_field, card_text};
ghost use Rattle.scripts.specs.declared.line.TheConstants.{MOST_BYTES};

use arrayvec::ArrayString;
use cards::card::Card;
use itoa::{Buffer, Integer};

/// The most bytes of a line that is written: an answer has 49 at most with its end, a call 58.
pub const MOST_BYTES: usize = 64;

/// A line that is written. Its bytes lie in the value itself, so writing takes no heap.
pub type Line = ArrayString<MOST_BYTES>;

// A letter or a byte of ASCII.
pub(crate) fn byte(line: &mut Line, byte: char)
    requires ascii { byte < 128 }
    requires room { length line.old.bytes + 1 ≤ MOST_BYTES }
    ensures text { line.new.bytes ≡ line.old.bytes ++ byte ∷ [] }
    ensures len { length line.new.bytes ≡ length line.old.bytes + 1 }
{
    line.push(byte);
}

// A number with one space before it.
pub(crate) fn spaced<I: Integer>(line: &mut Line, number: I)
    requires { length line.old.bytes + (1 + I.MAX_STR_LEN) ≤ MOST_BYTES }
    ensures text { line.new.bytes ≡ line.old.bytes ++ 32 ∷ I.text number }
    ensures len { length line.new.bytes ≤ length line.old.bytes + (1 + I.MAX_STR_LEN) }
{
    let mut buffer = Buffer::new();
    byte(line, ' ');
    line.push_str(buffer.format(number));
}

// The same of a field, where it is there.
pub(crate) fn spaced_field(line: &mut Line, field: Option<i16>)
    requires { length line.old.bytes + 7 ≤ MOST_BYTES }
    ensures text { line.new.bytes ≡ line.old.bytes ++ spaced_field field }
    ensures len { length line.new.bytes ≤ length line.old.bytes + 7 }
{
    if let Some(number) = field {
        spaced(line, number);
    }
}

// A card: its bit map and the fields that are there. The bit map has at most three digits.
pub(crate) fn card_text(line: &mut Line, card: Card)
    requires { length line.old.bytes + 46 ≤ MOST_BYTES }
    ensures text { line.new.bytes ≡ line.old.bytes ++ card_text card }
    ensures len { length line.new.bytes ≤ length line.old.bytes + 46 }
{
    spaced(line, card.map());
    spaced_field(line, card.advance);
    spaced_field(line, card.left_bearing);
    spaced_field(line, card.anchor_across);
    spaced_field(line, card.anchor_up);
    spaced_field(line, card.mark_class);
    spaced_field(line, card.kern);
}
