// The laws of the choice, as the contract of a function that does nothing.
ghost use Rattle.jacobian_pick.specs.Uniqueness.{CandidatesAreUnique, ChoicesAreUnique, FirstCandidatesAreChosen};

/// A problem has one list of candidates, at most one chosen denominator, and at most one cause of a refusal, want of
/// memory aside; and it does not have both. Where none is handed in, the chosen one is the first good candidate.
pub fn choices_are_unique()
    ensures candidates { CandidatesAreUnique }
    ensures choices { ChoicesAreUnique }
    ensures first { FirstCandidatesAreChosen }
{}
