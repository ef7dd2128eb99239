//! A list of at most N items, in memory of its own.
ghost use Rattle.std.specs.Prelude.{◌≡◌, ◌≤◌, [], length, slice_set};
ghost use Rattle.table.specs.GoesBy.{GoesBy, push};

use cards::refusal::Refusal;
use std::marker::Model;

// To a contract it is the list of its items. Those stand first in the memory; what is behind them does not count, so that to
// clear a list writes nothing but its length.
#[derive(Drop)]
pub(crate) struct Short<T, const N: usize> {
    items: [T; N],
    used: usize,
}

impl<T, const N: usize> Model for Short<T, N> {
    ghost use Rattle.std.specs.Prelude.{◌≡◌, ◌≤◌, List, length, take};

    ghost Value = { List T };

    ghost view = { λ s. take s.used s.items };

    ghost invariant = { λ s. (length s.items ≡ N) × (s.used ≤ N) };
}

impl<T: Copy, const N: usize> Short<T, N> {
    // A list without an item; its memory is filled with the one given.
    pub(crate) fn new(filler: T) -> Short<T, N>
        ensures { result ≡ [] }
    {
        Short {
            items: [filler; N],
            used: 0,
        }
    }

    // The items, in order of arrival.
    pub(crate) fn as_slice(&self) -> &[T]
        ensures items { result.now ≡ self.now }
        ensures few { length self.now ≤ N }
    {
        &self.items[..self.used]
    }

    // One more at the end; List where there is no place for it.
    pub(crate) fn push(&mut self, item: T) -> Result<(), Refusal>
        ensures { GoesBy (push N item) self.old self.new result }
    {
        if self.used >= N {
            return Err(Refusal::List);
        }
        self.items[self.used] = item;
        self.used += 1;
        Ok(())
    }

    // Another item in the place of one, if there is one.
    #[tactic(auto, using(crate::proofs::Lists::front))]
    pub(crate) fn replace(&mut self, at: usize, item: T)
        ensures { self.new ≡ slice_set self.old at item }
    {
        if at < self.used {
            self.items[at] = item;
        }
    }

    // No item.
    pub(crate) fn clear(&mut self)
        ensures { self.new ≡ [] }
    {
        self.used = 0;
    }
}
