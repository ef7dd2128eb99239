//! The theorems of the worked cases and of the numbers, each carried by a function that has nothing to compute.
ghost use Rattle.worked.specs.Numbers.{NumbersStand};
ghost use Rattle.worked.specs.Worked.{WorkedCasesHold};

/// The worked cases hold, as one statement over their list.
pub fn worked_cases_hold()
    ensures { WorkedCasesHold }
{}

/// The constants of the code, which the definitions cite, are the subject's numbers.
pub fn numbers_stand()
    ensures { NumbersStand }
{}
