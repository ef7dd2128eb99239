// Scripts and the lines that answer them, at their edges.
use cards::card::Card;
use cards::refusal::Refusal;
use keepers::keeper::Keeper;
use keepers::version::Version;
use linked::{Linked, Place};
use roll::Roll;
use rules::answer::Answer;
use rules::call::Call;
use scratch::run_on_scratch;
use scripts::run::{room_for, run_script};
use scripts::writer::{answer_line, call_line, unread_line};
use std::process::Abort;
use store::{Sizes, Store};

// What stands in memory before a script is run.
const UNTOUCHED: u8 = 0xA5;

// A script on a new store answers this, and the memory behind it stays.
fn answers(rt: &impl Abort, script: &[u8], want: &[u8]) {
    let mut memory = [UNTOUCHED; 1024];
    let written = run_on_scratch(script, &mut memory);
    assert_eq!(rt; written, Ok(want.len()));
    assert!(rt; memory.starts_with(want));
    assert!(rt;
        memory[want.len().min(1024)..]
            .iter()
            .all(|byte| *byte == UNTOUCHED)
    );
}

// With a byte of room less than each line asks for, a script is declined, and no byte is touched; with all of it, it is not.
fn needs(rt: &impl Abort, script: &[u8], room: usize) {
    assert_eq!(rt; room_for(script), room);
    let mut memory = [UNTOUCHED; 1024];
    let room = room.min(1024);
    if room > 0 {
        let written = run_on_scratch(script, &mut memory[..room - 1]);
        assert_eq!(rt; written, Err(Refusal::Short));
        assert_eq!(rt; memory, [UNTOUCHED; 1024]);
    }
    let written = run_on_scratch(script, &mut memory[..room]);
    assert!(rt; written.is_ok());
}

#[test]
fn lines_and_their_ends(rt: HostRuntime) {
    answers(&rt, b"", b"");
    answers(&rt, b"\n", b"? 14 1\n");
    answers(&rt, b"\n\n", b"? 14 1\n? 14 1\n");
    answers(&rt, b"p 1", b"p 0 0\n");
    answers(&rt, b"p 1\n", b"p 0 0\n");
    answers(&rt, b"p 1\n\nq 1", b"p 0 0\n? 14 1\nq 0\n");
    answers(&rt, b"p 1\r\n", b"? 14 2\n");
    answers(&rt, b"p 1\n ", b"p 0 0\n? 14 1\n");
}

#[test]
fn the_room_for_answers(rt: HostRuntime) {
    needs(&rt, b"", 0);
    needs(&rt, b"\n", 64);
    needs(&rt, b"p 1", 64);
    needs(&rt, b"p 1\n", 64);
    needs(&rt, b"p 1\nx", 128);
    needs(&rt, b"\n\n\n\n\n\n\n\n\n\n\n\n\n\n\n\n", 1024);
}

// A line that cannot be read makes no call, and leaves what the others find.
#[test]
fn lines_that_are_not_read(rt: HostRuntime) {
    answers(
        &rt,
        b"e 0\nw 0 4 0\nw 0 0 32 1\nw 0 0 -1\nw 0 1 1 -32768\nz 0\nr 0 1\nr 16 1\nr 0 4\n",
        b"e 0 0\nw 3\nw 4\n? 14 4\nw 0\n? 14 1\nr 0 1 -32768\nr 1\nr 3\n",
    );
}

// The script of a save, over any keeper.
fn saved<K: Keeper>(rt: &impl Abort, store: &mut Store<K>) {
    let script = b"e 1\nw 1 0 1 620\nl 1\ns 1\np 0\nu 1\nt 1\nr 0 0\np 2\nr 2 0\nc 0\n";
    let want = b"e 0 0\nw 0\nl 0 1\ns 0 1\np 0 0\nu 0 0\nt 0 1\nr 0 0\np 0 1\nr 0 1 620\nc 12\n";
    let mut memory = [UNTOUCHED; 704];
    assert_eq!(rt; run_script(store, script, &mut memory), Ok(want.len()));
    assert!(rt; memory.starts_with(want));
    assert_eq!(rt; store.clock(), 1);
    let mut few = [UNTOUCHED; 127];
    assert_eq!(rt;
        run_script(store, b"q 0\nr 2 0", &mut few),
        Err(Refusal::Short)
    );
    let mut enough = [UNTOUCHED; 128];
    assert_eq!(rt; run_script(store, b"q 0\nr 2 0", &mut enough), Ok(14));
    assert!(rt; enough.starts_with(b"q 0\nr 0 1 620\n"));
}

#[test]
fn a_save_over_each_keeper(rt: HostRuntime) {
    let sizes = Sizes {
        letters: 2,
        marks: 1,
        pairs: 1,
    };
    let mut memory = [Place::empty(); 8];
    saved(&rt, &mut Store::new(Linked::new(&mut memory), sizes));
    let mut memory = [Version::default(); 8];
    saved(&rt, &mut Store::new(Roll::new(&mut memory), sizes));
}

// A card whose every field is as long as a field can be.
fn longest() -> Card {
    let field = Some(i16::MIN);
    Card {
        advance: field,
        left_bearing: field,
        anchor_across: field,
        anchor_up: field,
        mark_class: field,
        kern: field,
    }
}

#[test]
fn the_longest_lines(rt: HostRuntime) {
    let card = longest();
    let call = Call::Write {
        seat: u16::MAX,
        entry: u16::MAX,
        card,
    };
    let line = call_line(call);
    assert_eq!(rt;
        line.as_str(),
        "w 65535 65535 63 -32768 -32768 -32768 -32768 -32768 -32768"
    );
    let call = Call::Read { seat: 0, entry: 0 };
    let line = answer_line(call, Ok(Answer::Card(card)));
    assert_eq!(rt;
        line.as_str(),
        "r 0 63 -32768 -32768 -32768 -32768 -32768 -32768\n"
    );
    let line = answer_line(Call::Stamp { seat: 0 }, Ok(Answer::Number(u32::MAX)));
    assert_eq!(rt; line.as_str(), "s 0 4294967295\n");
    assert_eq!(rt; unread_line(u32::MAX).as_str(), "? 14 4294967295\n");
}

#[test]
fn what_a_line_says_of_an_answer(rt: HostRuntime) {
    let call = Call::Drop { seat: 3 };
    assert_eq!(rt; answer_line(call, Ok(Answer::Done)).as_str(), "d 0\n");
    assert_eq!(rt; answer_line(call, Err(Refusal::Stage)).as_str(), "d 2\n");
    assert_eq!(rt; answer_line(call, Err(Refusal::Order)).as_str(), "d 18\n");
    let card = Card {
        left_bearing: Some(-1),
        kern: Some(0),
        ..Card::blank()
    };
    let call = Call::Read { seat: 3, entry: 9 };
    assert_eq!(rt;
        answer_line(call, Ok(Answer::Card(card))).as_str(),
        "r 0 34 -1 0\n"
    );
    assert_eq!(rt;
        answer_line(call, Ok(Answer::Card(Card::blank()))).as_str(),
        "r 0 0\n"
    );
}
