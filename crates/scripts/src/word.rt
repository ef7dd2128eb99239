//! The words of a line, and the letters and numbers that they are.
ghost use Rattle.std.specs.Prelude.{◌≡◌, ◌≤◌, IsTrue, IfSome};
ghost use Rattle.std.specs.List.{list_all};
ghost use Rattle.std.specs.Char.{is_ascii_digit};
ghost use Rattle.scripts.specs.declared.word.TheConstants.{MOST_BELOW};
ghost use Rattle.scripts.specs.Words.{number, negative, are_digits};

// The greatest number of a field.
const MOST_FIELD: u16 = 32_767;

// How far a field's least number is below 0.
const MOST_BELOW: u16 = 32_768;

// A word: a small letter alone, digits with perhaps a minus before them, or neither. Each holds its bytes of the line: what a number may
// be depends on where it stands.
#[derive(Clone, Copy)]
pub(crate) enum Word<'a> {
    Letter(&'a [u8]),
    Number(&'a [u8]),
    Other(&'a [u8]),
}

// Whether there is nothing but digits.
fn all_digits(bytes: &[u8]) -> bool
    ensures { result ≡ list_all is_ascii_digit bytes.now }
{
    bytes.iter().all(|byte| byte.is_ascii_digit())
}

// The number of digits that no 0 leads, up to the most.
fn number_of(digits: &[u8], most: u16) -> Option<u16>
    requires { IsTrue (are_digits digits.now) }
    ensures value { result ≡ number most digits.now }
    ensures most { IfSome result (λ n. n ≤ most) }
{
    if digits.len() > 1 && digits[0] == b'0' {
        return None;
    }
    let mut number = 0u32;
    for digit in digits {
        number = number * 10 + u32::from(*digit - b'0');
        if number > u32::from(most) {
            return None;
        }
    }
    Some(number as u16)
}

// The number below 0 of this size; there is no -0.
fn below_zero(size: u16) -> Option<i16>
    requires { size ≤ MOST_BELOW }
    ensures { result ≡ negative size }
{
    if size == 0 {
        return None;
    }
    Some((-i32::from(size)) as i16)
}

impl<'a> Word<'a> {
    ghost use Rattle.scripts.specs.Words.{letter, field};
    ghost use Rattle.scripts.specs.View.{bytes_of, HasKind};

    // The word of these bytes, by their kind.
    pub(crate) fn of(bytes: &'a [u8]) -> Word<'a>
        ensures same { bytes_of result ≡ bytes.now }
        ensures kind { HasKind result }
    {
        let digits = match bytes {
            [b'a'..=b'z'] => return Word::Letter(bytes),
            [b'-', digits @ ..] => digits,
            _ => bytes,
        };
        if !digits.is_empty() && all_digits(digits) {
            Word::Number(bytes)
        } else {
            Word::Other(bytes)
        }
    }

    // The letter that it is.
    pub(crate) fn letter(self) -> Option<char>
        requires { HasKind self }
        ensures { result ≡ letter (bytes_of self.entry) }
    {
        match self {
            Word::Letter(bytes) => Some(char::from(bytes[0])),
            Word::Number(_) | Word::Other(_) => None,
        }
    }

    // The number that it is, up to the most; no minus stands before it.
    #[tactic(auto, using(crate::proofs::Numbers::kinds))]
    pub(crate) fn number(self, most: u16) -> Option<u16>
        requires { HasKind self }
        ensures { result ≡ number most (bytes_of self.entry) }
    {
        match self {
            Word::Number([b'-', ..]) | Word::Letter(_) | Word::Other(_) => None,
            Word::Number(digits) => number_of(digits, most),
        }
    }

    // The number of 16 bits that it is, with perhaps a minus before it.
    #[tactic(auto, using(crate::proofs::Numbers::kinds))]
    pub(crate) fn field(self) -> Option<i16>
        requires { HasKind self }
        ensures { result ≡ field (bytes_of self.entry) }
    {
        match self {
            Word::Number([b'-', digits @ ..]) => below_zero(number_of(digits, MOST_BELOW)?),
            Word::Number(digits) => Some(number_of(digits, MOST_FIELD)? as i16),
            Word::Letter(_) | Word::Other(_) => None,
        }
    }
}
