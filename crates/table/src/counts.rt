//! How many entries a table has.
ghost use Rattle.std.specs.Prelude.{◌≡◌, ◌≤◌};
ghost use Rattle.cards.specs.declared.entry.TheConstants.{ENTRIES};
ghost use Rattle.rules.specs.State.{entries};
ghost use Rattle.rules.specs.NewStore.{suited};

use crate::sizes::suits;
use rules::sizes::Sizes;

/// Sizes that together are at most 1,024 entries. [`Sizes`] are what a host asks for, whatever they are; these are what a table has.
#[derive(Clone, Copy)]
pub struct Counts {
    pub sizes: Sizes,
    pub ghost small: { entries sizes ≤ ENTRIES },
}

impl Counts {
    // The sizes asked for, if a store may have them; else no entries.
    pub(crate) fn new(sizes: Sizes) -> Counts
        ensures { result.sizes ≡ suited sizes }
    {
        if !suits(sizes) {
            return Counts {
                sizes: Sizes::default(),
            };
        }
        Counts { sizes }
    }

    /// How many entries together.
    pub fn entries(self) -> usize
        ensures entries { result ≡ entries self.sizes }
        ensures small { result ≤ ENTRIES }
    {
        self.sizes.letters + self.sizes.marks + self.sizes.pairs
    }
}
