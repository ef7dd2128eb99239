//! The worked cases of the packed form, as a theorem that a function carries.
ghost use Rattle.packed.specs.Worked.{PackedCasesHold};

/// The worked cases hold, as one statement over their list. It has nothing to compute.
pub fn packed_cases_hold()
    ensures { PackedCasesHold }
{}
