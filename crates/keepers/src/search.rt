//! The one search, for every list of items that have an entry number.
ghost use Rattle.std.specs.Prelude.{◌≡◌, ℕ, ◌≤◌};
ghost use Rattle.keepers.specs.Lists.{Last};

/// An item of a list that has an entry number. One without a time counts as time 0.
pub trait BearsEntry {
    ghost entry_of: { Self → ℕ };

    ghost time_of: { Self → ℕ };

    /// Its entry number.
    fn entry(&self) -> u16
        ensures { result ≡ entry_of self.now };

    /// Its time, 0 where it has none.
    fn time(&self) -> u32
        ensures { result ≡ time_of self.now };
}

impl BearsEntry for u16 {
    ghost entry_of = { λ n. n };

    ghost time_of = { λ _. 0 };

    fn entry(&self) -> u16 {
        *self
    }

    fn time(&self) -> u32 {
        0
    }
}

/// The last position of an entry with a time up to `up_to`; `None` if there is none.
pub fn last_match<T: BearsEntry>(items: &[T], entry: u16, up_to: u32) -> Option<usize>
    ensures { Last (λ x. (T.entry_of x ≡ entry) × (T.time_of x ≤ up_to)) items.now result }
{
    items
        .iter()
        .rposition(|item| item.entry() == entry && item.time() <= up_to)
}
