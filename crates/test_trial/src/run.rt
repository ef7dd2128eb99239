// A run: each call is made on the store under test and on the plain one, and what they answer and hold is compared.
use crate::compare::{
    Difference, compare_all, compare_at, compare_row, compare_state, compare_versions,
};
use crate::plain::Plain;
use crate::refused::{entry_of, seat_of};
use crate::stretch::Stretch;
use crate::tally::Tally;
use anyhow::{Error, Result, anyhow, bail, ensure};
use cards::refusal::Refusal;
use keepers::keeper::Keeper;
use rules::answer::Answer;
use rules::call::Call;
use std::alloc::{AllocError, Global};
use store::{Sizes, Store};

// After so many calls everything is compared.
const WHOLE: u64 = 1000;

// How many of a touched entry's versions are compared after a call.
const DEPTH: u32 = 8;

#[derive(Drop)]
pub struct Run<K: Keeper> {
    store: Store<K>,
    pub plain: Plain,
    pub tally: Tally,
    calls: u64,
    // The entry that the call names; of a call that names none, those of its seat's drafts and reads.
    touched: Vec<u16>,
}

pub fn sizes_of(sizes: [u16; 3]) -> Sizes {
    let [letters, marks, pairs] = sizes;
    Sizes {
        letters: letters as usize,
        marks: marks as usize,
        pairs: pairs as usize,
    }
}

impl<K: Keeper + Drop> Run<K> {
    // Two new stores of letters, marks and pairs, one over a keeper with so many places.
    pub fn new(
        alloc: Global,
        keeper: K,
        sizes: [u16; 3],
        places: usize,
    ) -> Result<Run<K>, AllocError> {
        Ok(Run {
            store: Store::new(keeper, sizes_of(sizes)),
            plain: Plain::new(alloc, sizes, places)?,
            tally: Tally::NONE,
            calls: 0,
            touched: Vec::new(alloc),
        })
    }
}

impl<K: Keeper> Run<K> {
    // Notes which entries the call touches.
    fn touch(&mut self, call: Call) -> Result<(), AllocError> {
        self.touched.clear();
        if let Some(entry) = entry_of(call) {
            self.touched.push(entry)?;
        } else if let Some(number) = seat_of(call) {
            self.plain.note_entries(number, &mut self.touched)?;
        }
        Ok(())
    }

    // The newest versions of an entry, and the one that a proof at the floor reads.
    fn compare_newest(&self, entry: u16) -> Result<(), Difference> {
        let keeper = self.store.keeper();
        compare_versions(keeper, &self.plain, entry, DEPTH)?;
        compare_at(keeper, &self.plain, entry, self.plain.floor())
    }

    // Only a put and a collect change versions; of an entry that is read or written they are compared too.
    fn compare_touched(&self, call: Call) -> Result<(), Difference> {
        let deep = matches!(call, Call::Put { .. }) || entry_of(call).is_some();
        for entry in &self.touched {
            compare_row(&self.store, &self.plain, *entry)?;
            if deep {
                self.compare_newest(*entry)?;
            }
        }
        Ok(())
    }

    fn compare(&self, call: Call) -> Result<(), Difference> {
        compare_state(&self.store, &self.plain)?;
        self.compare_touched(call)?;
        if self.calls.is_multiple_of(WHOLE) {
            compare_all(&self.store, &self.plain)?;
        }
        Ok(())
    }

    // Makes the call on both stores, and compares the answers alone.
    fn answer(&mut self, call: Call) -> Result<Result<Answer, Refusal>> {
        let answer = self.store.apply(call);
        let other = self.plain.apply(call)?;
        self.calls = self.calls.saturating_add(1);
        if !self.tally.count(call, answer) || answer != other {
            return Err(differ(self.calls, call, answer, other));
        }
        Ok(answer)
    }

    // Makes the call on both stores, and compares all that it may change. Gives the answer.
    pub fn ask(&mut self, call: Call) -> Result<Result<Answer, Refusal>> {
        self.touch(call)?;
        let answer = self.answer(call)?;
        same(self.compare(call), self.calls)?;
        Ok(answer)
    }

    // The same, for one that does not want the answer.
    pub fn step(&mut self, call: Call) -> Result<()> {
        let _ = self.ask(call)?;
        Ok(())
    }

    // Makes calls in order, and compares the answers alone.
    pub fn pass(&mut self, calls: &[Call]) -> Result<()> {
        for call in calls {
            let _ = self.answer(*call)?;
        }
        Ok(())
    }

    // Makes the calls of a stretch at once, which the plain store has answered, and compares the answers and everything.
    pub fn hand_over(&mut self, stretch: &mut Stretch) -> Result<()> {
        let made = self.store.apply_all(&stretch.calls, &mut stretch.answers);
        stretch.compare(made)?;
        self.calls = self.calls.saturating_add(stretch.calls.len() as u64);
        self.compare_whole()
    }

    // The same calls with too few places for the answers: none is made, and nothing changes.
    pub fn hand_over_short(
        &mut self,
        calls: &[Call],
        few: &mut [Result<Answer, Refusal>],
    ) -> Result<()> {
        let result = self.store.apply_all(calls, few);
        ensure!(
            result == Err(Refusal::Short) && few.iter().all(|answer| *answer == Err(Refusal::Line)),
            "a stretch with too few places is granted, or answers a call"
        );
        self.compare_whole()
    }

    // Everything that the stores hold is compared.
    pub fn compare_whole(&self) -> Result<()> {
        same(compare_all(&self.store, &self.plain), self.calls)
    }
}

// The error where two stores answer a call otherwise, or by a number that is not in the table.
fn differ(
    calls: u64,
    call: Call,
    answer: Result<Answer, Refusal>,
    other: Result<Answer, Refusal>,
) -> Error {
    anyhow!("call {calls}, {call:?}: {answer:?}, and the plain store {other:?}")
}

// What differs after so many calls is an error.
pub fn same(found: Result<(), Difference>, calls: u64) -> Result<()> {
    if let Err(Difference { what, number }) = found {
        bail!("after {calls} calls the stores differ: {what} {number}")
    }
    Ok(())
}
