//! Which numbers of entries a store may have.
ghost use Rattle.std.specs.Prelude.{◌≡◌};
ghost use Rattle.rules.specs.NewStore.{suits};
ghost use Rattle.table.specs.Sizes.{sizes_answer};

use cards::entry::ENTRIES;
use cards::refusal::Refusal;
use keepers::memory::check_memory;
pub use rules::sizes::Sizes;

// Whether a store may have these sizes: one entry at least, and 1,024 at most.
pub(crate) fn suits(sizes: Sizes) -> bool
    ensures { result ≡ suits sizes }
{
    let entries = sizes
        .letters
        .saturating_add(sizes.marks)
        .saturating_add(sizes.pairs);
    entries > 0 && entries <= ENTRIES
}

/// Whether a store can be made with these sizes over memory of so many places: `Sizes` for sizes that no store may have, or for memory
/// that would not be used whole.
pub fn check(sizes: Sizes, places: usize) -> Result<(), Refusal>
    ensures { result ≡ sizes_answer sizes places }
{
    if !suits(sizes) {
        return Err(Refusal::Sizes);
    }
    check_memory(places)
}
