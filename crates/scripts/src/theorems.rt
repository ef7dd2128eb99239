//! The numbers of lines, carried by a function that has nothing to compute.
ghost use Rattle.scripts.specs.Limits.{LimitsStand};

/// The constants of this crate, which its definitions cite, are the numbers of the page on formats.
pub fn limits_stand()
    ensures { LimitsStand }
{}
