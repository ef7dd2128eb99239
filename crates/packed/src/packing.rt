//! The packed form of a card: the bit map's byte, then the fields that are there.
ghost use Rattle.std.specs.Prelude.{◌≡◌, ℕ, ◌+◌, ◌*◌, ◌<◌, ◌≤◌, IsTrue, IfOk, IfErr, ◌++◌, length, take, drop, is_some};
ghost use Rattle.cards.specs.Cards.{Fit};
ghost use Rattle.packed.specs.Packed.{packed, bits_set, field_bytes, pack_answer, pack_buffer, Unpacks, Unreadable};

use cards::card::Card;
use cards::refusal::Refusal;

// The length of a packed card, by its bit map: a table of the format.
const LENGTHS: [u8; 64] = [
    1, 3, 3, 5, 3, 5, 5, 7, 3, 5, 5, 7, 5, 7, 7, 9, 3, 5, 5, 7, 5, 7, 7, 9, 5, 7, 7, 9, 7, 9, 9,
    11, 3, 5, 5, 7, 5, 7, 7, 9, 5, 7, 7, 9, 7, 9, 9, 11, 5, 7, 7, 9, 7, 9, 9, 11, 7, 9, 9, 11, 9,
    11, 11, 13,
];

// A bit map is below this number.
const MAPS: u8 = 64;

// The length from the table: one byte for the map, and two for each field that is there.
fn length_of(map: u8) -> usize
    requires { map < MAPS }
    ensures { result ≡ 1 + 2 * bits_set map }
{
    usize::from(LENGTHS[usize::from(map)])
}

/// How many bytes a card packs to: an odd number, 1 to 13.
#[tactic(auto, using(crate::proofs::Fields::packed_length))]
pub fn packed_len(card: Card) -> usize
    ensures { result ≡ length (packed card) }
{
    length_of(card.map())
}

// Writes a field's bytes from a place on, and answers where they end.
fn put_field(out: &mut [u8], at: usize, field: Option<i16>) -> usize
    requires { at + length (field_bytes field) ≤ length out.old }
    ensures end { result ≡ at + length (field_bytes field) }
    ensures front { take result out.new ≡ take at out.old ++ field_bytes field }
    ensures rest { (k : ℕ) → result ≤ k → drop k out.new ≡ drop k out.old }
{
    match field {
        Some(n) => {
            out[at..at + 2].copy_from_slice(&n.to_be_bytes());
            at + 2
        }
        None => at,
    }
}

/// Writes a card at the front of a buffer and answers how many bytes it takes. The bytes behind it stay.
///
/// Declined by `Short` for a buffer with fewer bytes than the card takes, which then stays whole.
#[tactic(auto, using(crate::proofs::Fields::packed_length))]
pub fn pack(card: Card, out: &mut [u8]) -> Result<usize, Refusal>
    ensures answer { result ≡ pack_answer card (length out.old) }
    ensures buffer { out.new ≡ pack_buffer card out.old }
{
    let map = card.map();
    if out.len() < length_of(map) {
        return Err(Refusal::Short);
    }
    out[0] = map;
    let at = put_field(out, 1, card.advance);
    let at = put_field(out, at, card.left_bearing);
    let at = put_field(out, at, card.anchor_across);
    let at = put_field(out, at, card.anchor_up);
    let at = put_field(out, at, card.mark_class);
    let at = put_field(out, at, card.kern);
    Ok(at)
}

// Reads a field from the front of the bytes, if it is there, and gives what follows.
fn take_field(bytes: &[u8], present: bool) -> (Option<i16>, &[u8])
    requires { IsTrue present → 2 ≤ length bytes.now }
    ensures parts { bytes.now ≡ field_bytes result.0 ++ result.1.now }
    ensures there { is_some result.0 ≡ present }
    ensures fit { Fit result.0 }
{
    if present {
        let (number, rest) = bytes.split_first_chunk::<2>().unwrap();
        (Some(i16::from_be_bytes(*number)), rest)
    } else {
        (None, bytes)
    }
}

/// Reads one card from the front of the bytes, and answers it with the bytes that follow it.
///
/// Declined by `Short` for no byte, by `Map` for a first byte of 64 or more, and by `Short` for fewer bytes than that map's card takes.
#[tactic(auto, using(crate::proofs::Fields::unreadable))]
pub fn unpack(bytes: &[u8]) -> Result<(Card, &[u8]), Refusal>
    ensures card { IfOk result (λ x. Unpacks bytes.now x.0 x.1.now) }
    ensures declined { IfErr result (λ e. Unreadable bytes.now e) }
{
    let (&map, fields) = bytes.split_first().ok_or(Refusal::Short)?;
    if map >= MAPS {
        return Err(Refusal::Map);
    }
    if bytes.len() < length_of(map) {
        return Err(Refusal::Short);
    }
    // By the map and its halves, as the format is defined.
    let (advance, rest) = take_field(fields, map % 2 == 1);
    let (left_bearing, rest) = take_field(rest, map / 2 % 2 == 1);
    let (anchor_across, rest) = take_field(rest, map / 4 % 2 == 1);
    let (anchor_up, rest) = take_field(rest, map / 8 % 2 == 1);
    let (mark_class, rest) = take_field(rest, map / 16 % 2 == 1);
    let (kern, rest) = take_field(rest, map / 32 % 2 == 1);
    let card = Card {
        advance,
        left_bearing,
        anchor_across,
        anchor_up,
        mark_class,
        kern,
    };
    Ok((card, rest))
}
