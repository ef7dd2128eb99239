// The lines of a script at their edges.
use cards::card::Card;
use fixtures::kerned;
use rules::call::Call;
use scripts::reader::read_line;
use std::process::Abort;

fn reads(rt: &impl Abort, line: &[u8], want: Call) {
    assert_eq!(rt; read_line(line), Ok(want));
}

fn fails(rt: &impl Abort, line: &[u8], place: u32) {
    assert_eq!(rt; read_line(line), Err(place));
}

// What a write with one field, the kern, says.
fn kern(rt: &impl Abort, line: &[u8], want: i16) {
    reads(
        rt,
        line,
        Call::Write {
            seat: 2,
            entry: 1023,
            card: kerned(want),
        },
    );
}

#[test]
fn calls_of_one_number(rt: HostRuntime) {
    reads(&rt, b"p 0", Call::Proof { seat: 0 });
    reads(&rt, b"e 1", Call::Edit { seat: 1 });
    reads(&rt, b"l 2", Call::Lock { seat: 2 });
    reads(&rt, b"s 3", Call::Stamp { seat: 3 });
    reads(&rt, b"u 4", Call::Put { seat: 4 });
    reads(&rt, b"t 5", Call::Settle { seat: 5 });
    reads(&rt, b"d 6", Call::Drop { seat: 6 });
    reads(&rt, b"q 65535", Call::End { seat: 65535 });
    reads(&rt, b"c 1023", Call::Collect { entry: 1023 });
}

#[test]
fn calls_without_a_field(rt: HostRuntime) {
    reads(
        &rt,
        b"r 15 900",
        Call::Read {
            seat: 15,
            entry: 900,
        },
    );
    let card = Card::blank();
    reads(
        &rt,
        b"w 2 0 0",
        Call::Write {
            seat: 2,
            entry: 0,
            card,
        },
    );
}

#[test]
fn calls_with_fields(rt: HostRuntime) {
    let card = Card {
        advance: Some(620),
        left_bearing: Some(-1),
        anchor_across: Some(0),
        anchor_up: Some(32767),
        mark_class: Some(7),
        kern: Some(-32768),
    };
    reads(
        &rt,
        b"w 2 1023 63 620 -1 0 32767 7 -32768",
        Call::Write {
            seat: 2,
            entry: 1023,
            card,
        },
    );
    let card = Card {
        advance: Some(620),
        anchor_across: Some(-12),
        ..Card::blank()
    };
    reads(
        &rt,
        b"w 2 1023 5 620 -12",
        Call::Write {
            seat: 2,
            entry: 1023,
            card,
        },
    );
}

#[test]
fn numbers_in_range(rt: HostRuntime) {
    fails(&rt, b"p 65536", 2);
    fails(
        &rt,
        b"p 99999999999999999999999999999999999999999999999999999999999999999999",
        2,
    );
    fails(&rt, b"r 65536 x", 2);
    fails(&rt, b"r 0 65536", 3);
    fails(&rt, b"w 0 0 64", 4);
    fails(&rt, b"w 0 0 64 x x", 4);
    fails(&rt, b"p 00", 2);
    fails(&rt, b"p 01", 2);
    fails(&rt, b"p +1", 2);
    fails(&rt, b"p -1", 2);
    fails(&rt, b"p 1a", 2);
    fails(&rt, b"w 0 0 01 1", 4);
}

#[test]
fn fields_in_range(rt: HostRuntime) {
    kern(&rt, b"w 2 1023 32 0", 0);
    kern(&rt, b"w 2 1023 32 32767", 32767);
    kern(&rt, b"w 2 1023 32 -32768", -32768);
    kern(&rt, b"w 2 1023 32 -1", -1);
    fails(&rt, b"w 2 1023 32 32768", 5);
    fails(&rt, b"w 2 1023 32 -32769", 5);
    fails(&rt, b"w 2 1023 32 -0", 5);
    fails(&rt, b"w 2 1023 32 -01", 5);
    fails(&rt, b"w 2 1023 32 -", 5);
    fails(&rt, b"w 2 1023 32 --1", 5);
    fails(&rt, b"w 2 1023 32 +1", 5);
    fails(&rt, b"w 2 1023 33 1 x", 6);
}

#[test]
fn words_missing_and_surplus(rt: HostRuntime) {
    fails(&rt, b"p", 2);
    fails(&rt, b"r 1", 3);
    fails(&rt, b"w", 2);
    fails(&rt, b"w 1 2", 4);
    fails(&rt, b"w 1 2 1", 5);
    fails(&rt, b"w 1 2 63 1 2 3 4 5", 10);
    fails(&rt, b"w 1 2 63 1 2 3 4 5 6 7", 11);
    fails(&rt, b"w 1 2 0 1", 5);
    fails(&rt, b"p 1 2", 3);
    fails(&rt, b"r 1 2 x", 4);
    fails(&rt, b"r x y z", 2);
}

#[test]
fn first_words(rt: HostRuntime) {
    fails(&rt, b"", 1);
    fails(&rt, b" ", 1);
    fails(&rt, b"a 1", 1);
    fails(&rt, b"pp 1", 1);
    fails(&rt, b"P 1", 1);
    fails(&rt, b"1 1", 1);
    fails(&rt, b" p 1", 1);
    fails(&rt, b"x", 1);
}

#[test]
fn spaces_and_other_bytes(rt: HostRuntime) {
    fails(&rt, b"p ", 2);
    fails(&rt, b"p  1", 2);
    fails(&rt, b"p 1 ", 3);
    fails(&rt, b"p\x001", 1);
    fails(&rt, b"p 1\x00", 2);
    fails(&rt, b"p 1\r", 2);
    fails(&rt, b"p\t1", 1);
    fails(&rt, b"p 1\n", 2);
    fails(&rt, b"\xD9\xA1 1", 1);
    fails(&rt, b"p \xD9\xA1", 2);
    fails(&rt, b"p\xA01", 1);
}

#[test]
fn the_longest_line(rt: HostRuntime) {
    let mut line = [b' '; 81];
    line[0] = b'p';
    line[2] = b'1';
    fails(&rt, &line[..80], 3);
    fails(&rt, &line, 0);
    fails(&rt, &[b'p'; 80], 1);
    fails(&rt, &[0; 81], 0);
}
