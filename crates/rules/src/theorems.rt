//! The theorems of the rules, each carried by a function that has nothing to compute.
ghost use Rattle.rules.specs.Law.{LawHolds, LawOfLists};
ghost use Rattle.rules.specs.NewStore.{NewStoresStand, OpenedStoresStand};

/// The law holds of every run from a new store over an empty keeper: of every state that is reached, and of every list of calls.
pub fn law_holds()
    ensures reached { LawHolds }
    ensures lists { LawOfLists }
{}

/// There are such stores: whatever its sizes, a new store over an empty keeper stands as the law wants it; and one of places, one version a
/// place, does, for all sizes up to 1,024 entries and any number of places.
pub fn new_stores_stand()
    ensures any { NewStoresStand }
    ensures opened { OpenedStoresStand }
{}
