// The scenes of the story.
use crate::teller::Teller;
use cards::card::Card;
use fixtures::{LETTER, MARK, PAIR, kerned};
use keepers::keeper::Keeper;
use rules::call::Call;
use std::io;

fn letter(advance: i16) -> Card {
    Card {
        advance: Some(advance),
        left_bearing: Some(45),
        ..Card::blank()
    }
}

fn mark(across: i16) -> Card {
    Card {
        anchor_across: Some(across),
        anchor_up: Some(540),
        mark_class: Some(1),
        ..Card::blank()
    }
}

impl<K: Keeper> Teller<'_, K> {
    // The first cards of a letter, a mark and a pair are put in one edit; then a proof of the whole is opened.
    fn begin(&mut self) -> io::Result<()> {
        let title = "the first cards";
        let seat = 0;
        let calls = [
            Call::Edit { seat },
            Call::Write {
                seat,
                entry: LETTER,
                card: letter(620),
            },
            Call::Write {
                seat,
                entry: MARK,
                card: mark(120),
            },
            Call::Write {
                seat,
                entry: PAIR,
                card: kerned(-40),
            },
            Call::Lock { seat },
            Call::Stamp { seat },
            Call::Put { seat },
            Call::Put { seat },
            Call::Put { seat },
            Call::Settle { seat },
            Call::Proof { seat: 1 },
            Call::Read {
                seat: 1,
                entry: MARK,
            },
        ];
        self.act_all(title, &calls)
    }

    // Seat 2 begins to move the anchor and the kern in one edit, step by step. Seat 3 steps in between: it reads the mark and
    // drafts the letter.
    fn move_both(&mut self) -> io::Result<()> {
        let title = "the anchor and the kern are moved";
        let seat = 2;
        let calls = [
            Call::Edit { seat },
            Call::Read { seat, entry: MARK },
            Call::Write {
                seat,
                entry: MARK,
                card: mark(132),
            },
            Call::Edit { seat: 3 },
            Call::Read {
                seat: 3,
                entry: MARK,
            },
            Call::Write {
                seat,
                entry: PAIR,
                card: kerned(-52),
            },
            Call::Lock { seat },
            Call::Write {
                seat: 3,
                entry: LETTER,
                card: letter(630),
            },
            Call::Stamp { seat },
            Call::Proof { seat: 4 },
        ];
        self.act_all(title, &calls)
    }

    // The edit is put draft by draft. While it is half put the old proof reads on, and another proof is opened.
    fn put_both(&mut self) -> io::Result<()> {
        let title = "half put";
        let seat = 2;
        let calls = [
            Call::Put { seat },
            Call::Read {
                seat: 1,
                entry: MARK,
            },
            Call::Read {
                seat: 1,
                entry: PAIR,
            },
            Call::Read {
                seat: 3,
                entry: PAIR,
            },
            Call::Proof { seat: 5 },
            Call::Read {
                seat: 5,
                entry: MARK,
            },
            Call::Read {
                seat: 5,
                entry: PAIR,
            },
            Call::Put { seat },
            Call::Settle { seat },
        ];
        self.act_all(title, &calls)
    }

    // The proofs that began before the settling read both old cards; one that begins after it reads both new.
    fn compare(&mut self) -> io::Result<()> {
        let title = "old proofs and a new one";
        let calls = [
            Call::Read {
                seat: 1,
                entry: MARK,
            },
            Call::Read {
                seat: 1,
                entry: PAIR,
            },
            Call::Read {
                seat: 4,
                entry: MARK,
            },
            Call::Read {
                seat: 4,
                entry: PAIR,
            },
            Call::Read {
                seat: 5,
                entry: MARK,
            },
            Call::Read {
                seat: 5,
                entry: PAIR,
            },
            Call::Proof { seat: 6 },
            Call::Read {
                seat: 6,
                entry: MARK,
            },
            Call::Read {
                seat: 6,
                entry: PAIR,
            },
        ];
        self.act_all(title, &calls)
    }

    // Seat 3 read the old mark, so its edit is overtaken: it gets no time, and is dropped.
    fn overtake(&mut self) -> io::Result<()> {
        let title = "the overtaken edit, which read the mark before it was moved";
        let seat = 3;
        let calls = [
            Call::Lock { seat },
            Call::Stamp { seat },
            Call::Drop { seat },
        ];
        self.act_all(title, &calls)
    }

    // While a proof may need the old versions they are held; once the old proofs have ended, one version of each entry is left.
    fn collect(&mut self) -> io::Result<()> {
        let title = "the old versions";
        let calls = [
            Call::Collect { entry: MARK },
            Call::End { seat: 1 },
            Call::End { seat: 4 },
            Call::Collect { entry: PAIR },
            Call::End { seat: 5 },
            Call::Collect { entry: MARK },
            Call::Collect { entry: MARK },
            Call::Collect { entry: PAIR },
            Call::Collect { entry: PAIR },
            Call::Collect { entry: LETTER },
            Call::Read {
                seat: 6,
                entry: MARK,
            },
            Call::Read {
                seat: 6,
                entry: PAIR,
            },
            Call::Read {
                seat: 6,
                entry: LETTER,
            },
            Call::End { seat: 6 },
        ];
        self.act_all(title, &calls)
    }

    // The whole story.
    pub fn tell(&mut self) -> io::Result<()> {
        self.begin()?;
        self.move_both()?;
        self.put_both()?;
        self.compare()?;
        self.overtake()?;
        self.collect()
    }
}
