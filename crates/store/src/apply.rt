//! Any one call, and any list of calls.
ghost use Rattle.std.specs.Prelude.{◌≡◌, OnErr, List, ◌∷◌, length};
ghost use Rattle.std.specs.Bool.{OnFalse};
ghost use Rattle.rules.specs.Runs.{Event, event, events, Reached, rule_of, play};
ghost use Rattle.store.specs.Runs.{changes_keeper, made, made_answer, answered_in, LawfulRun};

use crate::store::Store;
use cards::refusal::Refusal;
use keepers::keeper::Keeper;
use rules::answer::Answer;
use rules::call::Call;

impl<K: Keeper> Store<K> {
    ghost use Rattle.store.specs.View.{view, Does};

    // Makes one call by its rule. It stands apart so that the law of `apply` follows from this contract, and not once for each call.
    #[tactic(auto, using(crate::proofs::Answering::answerings))]
    fn make(&mut self, call: Call) -> Result<Answer, Refusal>
        ensures call { Does K.means (rule_of call) self.old self.new result }
        ensures keeper { OnFalse (changes_keeper call) (self.new.keeper ≡ self.old.keeper) }
    {
        match call {
            Call::Proof { seat } => self.proof(seat).map(Answer::Number),
            Call::Edit { seat } => self.edit(seat).map(Answer::Number),
            Call::Read { seat, entry } => self.read(seat, entry).map(Answer::Card),
            Call::Write { seat, entry, card } => self
                .write(seat, entry, card)
                .map(|()| Answer::Done),
            Call::Lock { seat } => self.lock(seat).map(Answer::Number),
            Call::Stamp { seat } => self.stamp(seat).map(Answer::Number),
            Call::Put { seat } => self.put(seat).map(Answer::Number),
            Call::Settle { seat } => self.settle(seat).map(Answer::Number),
            Call::Drop { seat } => self.drop_edit(seat).map(|()| Answer::Done),
            Call::End { seat } => self.end(seat).map(|()| Answer::Done),
            Call::Collect { entry } => self.collect(entry).map(Answer::Number),
        }
    }

    /// Makes one call, and answers and declines as it does by its name. The law holds of every history that led to this store, with this
    /// call and its answer.
    pub fn apply(&mut self, call: Call) -> Result<Answer, Refusal>
        ensures call { Does K.means (rule_of call) self.old self.new result }
        ensures keeper { OnFalse (changes_keeper call) (self.new.keeper ≡ self.old.keeper) }
        ensures law { (h : List Event) → Reached h (view K.means self.old) →
            LawfulRun (event call result ∷ h) (view K.means self.new) }
    {
        self.make(call)
    }

    /// Makes calls in order, and gives their answers. The law holds of every history that led to this store, with these calls and their
    /// answers.
    ///
    /// Declined by `Short`, before any call is made, where the answers have too few places.
    pub fn apply_all(
        &mut self,
        calls: &[Call],
        answers: &mut [Result<Answer, Refusal>],
    ) -> Result<(), Refusal>
        ensures state { view K.means self.new ≡
            play (view K.means self.old) (made calls.now (length answers.old)) }
        ensures answers { answers.new ≡ answered_in (view K.means self.old) calls.now answers.old }
        ensures result { result ≡ made_answer calls.now (length answers.old) }
        ensures same { OnErr result (self.new ≡ self.old) }
        ensures law { (h : List Event) → Reached h (view K.means self.old) →
            LawfulRun (events h (made calls.now (length answers.old)) answers.new) (view K.means self.new) }
    {
        if answers.len() < calls.len() {
            return Err(Refusal::Short);
        }
        for (at, call) in calls.iter().enumerate() {
            answers[at] = self.apply(*call);
        }
        Ok(())
    }
}
