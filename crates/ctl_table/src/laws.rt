//! The law on one step of the table: the contract of a function that does nothing.

ghost use Rattle.ctl_table.specs.Laws.{TurnLaw};

/// From a table that meets its rule, a step or a timeout of any post leads to one that meets it, and its item is a step
/// of the model between the states that the two show.
pub fn each_turn_keeps_the_table()
    ensures { TurnLaw }
{}
