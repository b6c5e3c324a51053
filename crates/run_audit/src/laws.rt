//! Laws of the definitions: each is the contract of a function that does nothing.

ghost use Rattle.run_audit.specs.Differences.{DifferencesDisagree, OneDifference};

/// States that where there is a first difference, histories and logs do not agree, and that all
/// first differences are of one cell.
pub fn differences_disagree()
    ensures disagree { DifferencesDisagree }
    ensures one { OneDifference }
{}
