//! A place among the words of a line.
ghost use Rattle.std.specs.Prelude.{◌+◌, ◌≤◌};
ghost use Rattle.scripts.specs.Words.{most_words};
ghost use Rattle.scripts.specs.declared.reader.TheConstants.{MOST_LINE};

use crate::bytes::cut;
use crate::word::Word;

// What is left of a line, unless all its words were read, and the place of the next word, from 1. No line has more words than bytes and
// one, so that no place is above the most bytes of a line and two.
#[derive(Drop)]
pub(crate) struct Cursor<'a> {
    pub(crate) left: Option<&'a [u8]>,
    pub(crate) place: u32,
    ghost few: { place + most_words left ≤ MOST_LINE + 2 },
}

impl<'a> Cursor<'a> {
    ghost use Rattle.std.specs.Prelude.{◌≡◌, length, IfSome, option_map};
    ghost use Rattle.scripts.specs.Words.{letter, number, field};
    ghost use Rattle.scripts.specs.Lines.{first, fit, next, end, fit_if, next_if, all_of};
    ghost use Rattle.scripts.specs.View.{bytes_of, HasKind, left_of};

    // Before the first word.
    pub(crate) fn new(line: &'a [u8]) -> Cursor<'a>
        requires { length line.now ≤ MOST_LINE }
        ensures { left_of result ≡ all_of line.now }
    {
        Cursor {
            left: Some(line),
            place: 1,
        }
    }

    // The next word, if there is one. A space at a line's end has an empty word behind it, so no bytes left and no word left are two things.
    pub(crate) fn word(&mut self) -> Option<Word<'a>>
        ensures word { option_map bytes_of result ≡ first (left_of self.old).words }
        ensures kind { IfSome result HasKind }
        ensures rest { left_of self.new ≡ next (left_of self.old) }
    {
        let (word, left) = cut(self.left?, b' ');
        self.left = left;
        self.place += 1;
        Some(Word::of(word))
    }

    // The letter that the next word is.
    pub(crate) fn letter(&mut self) -> Result<char, u32>
        ensures answer { result ≡ fit letter (left_of self.old) }
        ensures rest { left_of self.new ≡ next (left_of self.old) }
    {
        let place = self.place;
        let word = self.word().ok_or(place)?;
        word.letter().ok_or(place)
    }

    // The number that the next word is, without a sign, and up to the most.
    pub(crate) fn number(&mut self, most: u16) -> Result<u16, u32>
        ensures answer { result ≡ fit (number most) (left_of self.old) }
        ensures rest { left_of self.new ≡ next (left_of self.old) }
    {
        let place = self.place;
        let word = self.word().ok_or(place)?;
        word.number(most).ok_or(place)
    }

    // The number that the next word is, of 16 bits, perhaps with a minus.
    pub(crate) fn field(&mut self) -> Result<i16, u32>
        ensures answer { result ≡ fit field (left_of self.old) }
        ensures rest { left_of self.new ≡ next (left_of self.old) }
    {
        let place = self.place;
        let word = self.word().ok_or(place)?;
        word.field().ok_or(place)
    }

    // Whether no word is left, or the place of the next.
    #[tactic(auto, using(crate::proofs::Cuts::has_word))]
    pub(crate) fn end(&self) -> Result<(), u32>
        ensures { result ≡ end (left_of self.now) }
    {
        match self.left {
            Some(_) => Err(self.place),
            None => Ok(()),
        }
    }

    // A field: the next word where it is present; where it is not, no word is taken.
    pub(crate) fn field_if(&mut self, present: bool) -> Result<Option<i16>, u32>
        ensures answer { result ≡ fit_if present (left_of self.old) }
        ensures rest { left_of self.new ≡ next_if present (left_of self.old) }
    {
        if present {
            Ok(Some(self.field()?))
        } else {
            Ok(None)
        }
    }
}
