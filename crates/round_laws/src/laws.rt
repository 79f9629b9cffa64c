//! Laws of the definitions: each is the contract of a function that does nothing.

ghost use Rattle.round_laws.specs.OneStep.{StepLaw};
ghost use Rattle.round_laws.specs.Laws.{VerdictHolds, VerdictIsOne};

/// Every step and every timeout of every thread keeps the rule, and its item is a step of the model.
pub fn each_step_keeps_the_rule()
    ensures { StepLaw }
{}

/// Every outcome has a verdict, the first answer that holds of it, and no other.
pub fn the_verdict_is_the_first_that_holds()
    ensures holds { VerdictHolds }
    ensures one { VerdictIsOne }
{}
