// Cards, kinds, refusals and the packed form at their edges. The bytes that are wanted are written out.
use cards::card::Card;
use cards::kind::{Letter, Mark, Pair, fits};
use cards::refusal::Refusal;
use fixtures::{kerned, wide};
use packed::packing::{pack, packed_len, unpack};
use std::process::Abort;
use std::test::Fail;

fn full() -> Card {
    Card {
        advance: Some(620),
        left_bearing: Some(-1),
        anchor_across: Some(-12),
        anchor_up: Some(i16::MAX),
        mark_class: Some(0),
        kern: Some(i16::MIN),
    }
}

// A card is packed into a buffer of 16 bytes that all hold 9.
fn packed_into(rt: &impl Abort, card: Card, want: [u8; 16], len: usize) -> Result<(), Fail> {
    let mut out = [9u8; 16];
    assert_eq!(rt; pack(card, &mut out), Ok(len));
    assert_eq!(rt; packed_len(card), len);
    assert!(rt; out == want);
    let (back, rest) = unpack(&out)?;
    assert_eq!(rt; back, card);
    assert_eq!(rt; rest.len() + len, 16);
    Ok(())
}

#[test]
fn worked_bytes(rt: HostRuntime) -> Result<(), Fail> {
    packed_into(
        &rt,
        Card::blank(),
        [0, 9, 9, 9, 9, 9, 9, 9, 9, 9, 9, 9, 9, 9, 9, 9],
        1,
    )?;
    let wide = Card {
        advance: Some(620),
        anchor_across: Some(-12),
        ..Card::blank()
    };
    packed_into(
        &rt,
        wide,
        [5, 2, 0x6C, 0xFF, 0xF4, 9, 9, 9, 9, 9, 9, 9, 9, 9, 9, 9],
        5,
    )?;
    let tight = kerned(-40);
    packed_into(
        &rt,
        tight,
        [0x20, 0xFF, 0xD8, 9, 9, 9, 9, 9, 9, 9, 9, 9, 9, 9, 9, 9],
        3,
    )?;
    packed_into(
        &rt,
        full(),
        [
            63, 2, 0x6C, 0xFF, 0xFF, 0xFF, 0xF4, 0x7F, 0xFF, 0, 0, 0x80, 0, 9, 9, 9,
        ],
        13,
    )
}

#[test]
fn a_short_buffer_stays(rt: HostRuntime) {
    let mut out = [7u8; 12];
    assert_eq!(rt; pack(full(), &mut out), Err(Refusal::Short));
    assert!(rt; out == [7u8; 12]);
    let mut none: [u8; 0] = [];
    assert_eq!(rt; pack(Card::blank(), &mut none), Err(Refusal::Short));
}

#[test]
fn bytes_that_are_no_card(rt: HostRuntime) {
    assert_eq!(rt; unpack(&[]).err(), Some(Refusal::Short));
    assert_eq!(rt; unpack(&[0x40]).err(), Some(Refusal::Map));
    assert_eq!(rt; unpack(&[0xFF, 0, 0]).err(), Some(Refusal::Map));
    assert_eq!(rt; unpack(&[1, 2]).err(), Some(Refusal::Short));
    assert_eq!(rt;
        unpack(&[63, 0, 0, 0, 0, 0, 0, 0, 0, 0, 0, 0]).err(),
        Some(Refusal::Short)
    );
}

#[test]
fn what_a_kind_may_bear(rt: HostRuntime) {
    assert!(rt;
        fits::<Letter>(Card::blank()) && fits::<Mark>(Card::blank()) && fits::<Pair>(Card::blank())
    );
    assert!(rt; !fits::<Letter>(full()) && !fits::<Mark>(full()) && !fits::<Pair>(full()));
    let anchored = Card {
        anchor_across: Some(1),
        anchor_up: Some(2),
        ..Card::blank()
    };
    assert!(rt; fits::<Letter>(anchored) && fits::<Mark>(anchored) && !fits::<Pair>(anchored));
    let wide = wide(5);
    assert!(rt; fits::<Letter>(wide) && !fits::<Mark>(wide) && !fits::<Pair>(wide));
    let tight = kerned(-40);
    assert!(rt; !fits::<Letter>(tight) && !fits::<Mark>(tight) && fits::<Pair>(tight));
}

#[test]
fn numbers_and_words(rt: HostRuntime) {
    assert_eq!(rt; Refusal::Seat.number(), 1);
    assert_eq!(rt; Refusal::Order.number(), 18);
    assert_eq!(rt; u8::from(Refusal::Map), 15);
    assert!(rt; Refusal::Order.word() == "order");
}

#[test]
fn a_card_shown(rt: HostRuntime) -> Result<(), Fail> {
    let text = full().to_string(rt.alloc())?;
    assert_eq!(rt;
        text.as_str(),
        "advance 620, left bearing -1, anchor across -12, anchor up 32767, mark class 0, kern -32768"
    );
    let text = Card::blank().to_string(rt.alloc())?;
    assert_eq!(rt; text.as_str(), "blank");
    Ok(())
}
