// A stretch of calls that are handed over at once. They are thrown on a plain store first, which answers each before the next is thrown.
use crate::choice::next_call;
use crate::dice::Dice;
use crate::plain::Plain;
use crate::shape::Shape;
use crate::tally::Tally;
use anyhow::ensure;
use cards::refusal::Refusal;
use rules::answer::Answer;
use rules::call::Call;
use std::alloc::{AllocError, Global};

#[derive(Drop)]
pub struct Stretch {
    pub calls: Vec<Call>,
    // What the plain store answered.
    pub wanted: Vec<Result<Answer, Refusal>>,
    // Places for the answers of the store under test. At first they hold what no call of a store gets.
    pub answers: Vec<Result<Answer, Refusal>>,
}

impl Stretch {
    // So many thrown calls, counted by their answers.
    pub fn thrown(
        alloc: Global,
        dice: &mut Dice,
        shape: &Shape,
        plain: &mut Plain,
        tally: &mut Tally,
        calls: u16,
    ) -> Result<Stretch, AllocError> {
        let mut stretch = Stretch {
            calls: Vec::new(alloc),
            wanted: Vec::new(alloc),
            answers: vec![in alloc; Err(Refusal::Line); calls as usize]?,
        };
        for _ in 0..calls {
            let call = next_call(dice, shape, plain);
            tally.count(call, stretch.throw(call, plain)?);
        }
        Ok(stretch)
    }

    // One more, with what the plain store answers.
    fn throw(
        &mut self,
        call: Call,
        plain: &mut Plain,
    ) -> Result<Result<Answer, Refusal>, AllocError> {
        let wanted = plain.apply(call)?;
        self.calls.push(call)?;
        self.wanted.push(wanted)?;
        Ok(wanted)
    }

    // The store under test made the calls, and answered what the plain one did.
    pub fn compare(&self, made: Result<(), Refusal>) -> anyhow::Result<()> {
        ensure!(
            made.is_ok() && self.answers.as_slice() == self.wanted.as_slice(),
            "calls that are made at once are answered otherwise than by the plain store"
        );
        Ok(())
    }
}
