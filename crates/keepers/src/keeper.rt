//! What keeps versions, however it does: the promises that a store is built on.
ghost use Rattle.std.specs.Prelude.{◌≡◌, OnErr, is_some};
ghost use Rattle.std.specs.Bool.{OnFalse};
ghost use Rattle.cards.specs.Holding.{Holding, Lawful, spare_now, verdict};
ghost use Rattle.cards.specs.Versions.{held_in};
ghost use Rattle.keepers.specs.Kept.{Newest, Follows, Bounded, OnePlaceEach, add_refusal, added, add_answer, removed};

use crate::version::Version;
use cards::refusal::Refusal;

/// A keeper: where versions are held. It means a [`Holding`]: the set of versions that it holds, how many more have a place, and why one
/// more is declined. No call changes the last two.
pub trait Keeper {
    ghost means: { Self → Holding };

    /// How many versions are held.
    fn held(&self) -> u32
        ensures { result ≡ held_in (means self.now).kept };

    /// How many more have a place.
    fn spare(&self) -> u32
        ensures { result ≡ spare_now (means self.now) };

    /// Takes a version in, later than every one of its entry.
    ///
    /// Declined by `Entry` for an entry of 1,024 or more, by `Full` where no place is spare, and by `Order` for a time that is not later
    /// than each that the entry has, or is 0; the keeper is then as it was.
    fn add(&mut self, version: Version) -> Result<(), Refusal>
        ensures means { means self.new ≡
            added (add_refusal (means self.old) version) (means self.old) version }
        ensures answer { result ≡ add_answer (add_refusal (means self.old) version) }
        ensures same { OnErr result (self.new ≡ self.old) };

    /// The newest version of an entry up to a time, if there is one.
    fn find(&self, entry: u16, up_to: u32) -> Option<Version>
        ensures { Newest (means self.now).kept entry up_to result };

    /// The least time above `time` that is held for an entry, if there is one.
    fn after(&self, entry: u16, time: u32) -> Option<u32>
        ensures { Follows (means self.now).kept entry time result };

    /// Takes the version of an entry at a time out, and answers whether it was there.
    fn remove(&mut self, entry: u16, time: u32) -> bool
        ensures means { means self.new ≡ removed (means self.old) entry time }
        ensures answer { result ≡ is_some ((means self.old).kept entry time) }
        ensures same { OnFalse result (self.new ≡ self.old) };

    // What may be held.
    ghost bounded: { (s : Self) → Bounded (means s).kept };

    // A version is declined exactly for the reasons that `add` names.
    ghost verdicts: { (s : Self) → (means s).refuses ≡ verdict (means s).spare };

    // What a store asks of the places that are spare, and of when a version is taken.
    ghost lawful: { (s : Self) → Lawful (means s) };

    // Each version has a place of its own. Nothing above the keepers rests on this.
    ghost places: { (s : Self) → OnePlaceEach (means s) };
}
