// The laws of deltas under a limit: the function has an empty body, and its contract is the law.
ghost use Rattle.curve_answer.specs.Deltas.{DeltasDecide};

/// Deltas that are within a limit are not above it.
pub fn deltas_decide()
    ensures { DeltasDecide }
{}
