// What the atomic steps are.
ghost use Rattle.race_table.specs.Events.{TableStepsAreEvents};

/// Each kind of step on a table is its event of the race machine: a draw, a look or a try to win is
/// allowed and leads to the next state, and a split and a unite change no state.
pub fn table_steps_are_events()
    ensures { TableStepsAreEvents }
{}
