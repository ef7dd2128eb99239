//! What the promises of a keeper come to, each as a theorem that a function carries.
ghost use Rattle.keepers.specs.Fixed.{FindFixed, AfterFixed, OrderWords};

/// The contracts of find and after leave no choice; add declines by Order exactly a time that is 0, or not later than each that
/// the entry has. It has nothing to compute.
pub fn answers_are_fixed()
    ensures find { FindFixed }
    ensures after { AfterFixed }
    ensures order { OrderWords }
{}
