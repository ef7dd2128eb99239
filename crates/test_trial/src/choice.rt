// The next call of a phase. Mostly one that the seat's stage serves, so that histories go on; sometimes any.
use crate::dice::Dice;
use crate::plain::{Plain, SEATS};
use crate::shape::Shape;
use cards::card::Card;
use rules::call::Call;
use rules::stage::Stage;

fn field(dice: &mut Dice, map: u8, value: u8) -> Option<i16> {
    if map & value == 0 {
        return None;
    }
    Some(dice.number())
}

// A card with some of the fields that the entry's kind may bear; seldom with any of the six.
fn card(dice: &mut Dice, plain: &Plain, entry: u16) -> Card {
    let some = u8::try_from(dice.below(64)).unwrap_or(0);
    let map = if dice.chance(30) {
        some
    } else {
        some & plain.kind_map(entry)
    };
    Card {
        advance: field(dice, map, 1),
        left_bearing: field(dice, map, 2),
        anchor_across: field(dice, map, 4),
        anchor_up: field(dice, map, 8),
        mark_class: field(dice, map, 16),
        kern: field(dice, map, 32),
    }
}

// An entry of the store, at times one of the first four; seldom one out of range.
fn entry(dice: &mut Dice, plain: &Plain) -> u16 {
    let entries = plain.entries();
    if dice.chance(10) {
        return entries.saturating_add(dice.below(3));
    }
    if dice.chance(2) {
        return u16::MAX;
    }
    if dice.chance(100) {
        return dice.below(entries.min(4));
    }
    dice.below(entries)
}

// A seat that takes part; seldom any, or one out of range.
fn seat(dice: &mut Dice, shape: &Shape) -> u16 {
    if dice.chance(10) {
        return dice.below(20);
    }
    if dice.chance(1) {
        return u16::MAX;
    }
    dice.below(shape.seats)
}

fn read(dice: &mut Dice, plain: &Plain, seat: u16) -> Call {
    let entry = entry(dice, plain);
    Call::Read { seat, entry }
}

fn write(dice: &mut Dice, plain: &Plain, seat: u16) -> Call {
    let entry = entry(dice, plain);
    let card = card(dice, plain, entry);
    Call::Write { seat, entry, card }
}

// Any of the eleven calls.
fn any(dice: &mut Dice, plain: &Plain, seat: u16) -> Call {
    match dice.below(11) {
        0 => Call::Proof { seat },
        1 => Call::Edit { seat },
        2 => read(dice, plain, seat),
        3 => write(dice, plain, seat),
        4 => Call::Lock { seat },
        5 => Call::Stamp { seat },
        6 => Call::Put { seat },
        7 => Call::Settle { seat },
        8 => Call::Drop { seat },
        9 => Call::End { seat },
        _ => Call::Collect {
            entry: entry(dice, plain),
        },
    }
}

fn of_edit(dice: &mut Dice, shape: &Shape, plain: &Plain, seat: u16) -> Call {
    let empty = plain.unput(seat) == 0;
    if dice.chance(shape.locks) && (!empty || dice.chance(100)) {
        return Call::Lock { seat };
    }
    if dice.chance(shape.drops) {
        return Call::Drop { seat };
    }
    if dice.chance(shape.reads) {
        return read(dice, plain, seat);
    }
    write(dice, plain, seat)
}

// The seat whose time the ready point waits for: the least that is not put.
fn slowest(plain: &Plain) -> Option<u16> {
    let ready = plain.ready();
    for seat in 0..SEATS {
        if let Stage::Stamped { time, .. } = plain.stage(seat) {
            if time.saturating_sub(1) == ready && plain.unput(seat) > 0 {
                return Some(seat);
            }
        }
    }
    None
}

// Where all is put, another seat may step in before the settle.
fn of_stamped(dice: &mut Dice, plain: &Plain, seat: u16) -> Call {
    if plain.unput(seat) > 0 && !dice.chance(50) {
        return Call::Put { seat };
    }
    match slowest(plain) {
        Some(other) if !dice.chance(400) => Call::Put { seat: other },
        _ => Call::Settle { seat },
    }
}

// A call that the seat's stage serves.
fn fitting(dice: &mut Dice, shape: &Shape, plain: &Plain, seat: u16) -> Call {
    match plain.stage(seat) {
        Stage::Idle if dice.chance(shape.proofs) => Call::Proof { seat },
        Stage::Idle => Call::Edit { seat },
        Stage::Proof { .. } if dice.chance(shape.ends) => Call::End { seat },
        Stage::Proof { .. } => read(dice, plain, seat),
        Stage::Edit { .. } => of_edit(dice, shape, plain, seat),
        Stage::Locked { .. } if dice.chance(200) => Call::Drop { seat },
        Stage::Locked { .. } => Call::Stamp { seat },
        Stage::Stamped { .. } => of_stamped(dice, plain, seat),
    }
}

// The next call.
pub fn next_call(dice: &mut Dice, shape: &Shape, plain: &Plain) -> Call {
    if dice.chance(shape.collects) {
        return Call::Collect {
            entry: entry(dice, plain),
        };
    }
    let seat = seat(dice, shape);
    if dice.chance(30) {
        return any(dice, plain, seat);
    }
    fitting(dice, shape, plain, seat)
}
