//! A whole run: a new store, and calls made on it in order.
ghost use Rattle.std.specs.Prelude.{◌≡◌, OnErr, [], length};
ghost use Rattle.cards.specs.Versions.{Empty};
ghost use Rattle.rules.specs.Law.{Law};
ghost use Rattle.rules.specs.NewStore.{new_store};
ghost use Rattle.rules.specs.Runs.{events, play};
ghost use Rattle.rules.specs.State.{size};
ghost use Rattle.store.specs.Runs.{made, made_answer, answered_in};
ghost use Rattle.store.specs.View.{view};

use crate::store::Store;
use cards::refusal::Refusal;
use keepers::keeper::Keeper;
use rules::answer::Answer;
use rules::call::Call;
use rules::sizes::Sizes;

/// Makes a store over a keeper and then the calls, and gives their answers and the store. If the keeper was empty, the law holds of the calls
/// and their answers.
///
/// Declined by `Short`, with a store on which no call was made, where the answers have too few places.
pub fn run<K: Keeper>(
    keeper: K,
    sizes: Sizes,
    calls: &[Call],
    answers: &mut [Result<Answer, Refusal>],
) -> (Store<K>, Result<(), Refusal>)
    ensures state { view K.means result.0 ≡
        play (new_store sizes (K.means keeper)) (made calls.now (length answers.old)) }
    ensures answers { answers.new ≡
        answered_in (new_store sizes (K.means keeper)) calls.now answers.old }
    ensures result { result.1 ≡ made_answer calls.now (length answers.old) }
    ensures entries { size (view K.means result.0) ≡ size (new_store sizes (K.means keeper)) }
    ensures keeper { OnErr result.1 (result.0.keeper ≡ keeper) }
    ensures law { Empty (K.means keeper).kept →
        Law (events [] (made calls.now (length answers.old)) answers.new) (view K.means result.0) }
{
    let mut store = Store::new(keeper, sizes);
    let result = store.apply_all(calls, answers);
    (store, result)
}
