//! Why the laws have their premises and bounds.

ghost use Rattle.play_laws.specs.Needed.{RuleIsNeededForSafety, RuleIsNeededToGetOn, CalmIsNeeded, EightRoundsAreFew};

/// From words that break the rule, a group may be written while one of its threads is outside the handler, and all
/// threads may wait for one that has left. With the rule alone, an NMI that is latched for a thread outside makes an
/// event no step of the model.
pub fn the_rule_is_needed()
    ensures safety { RuleIsNeededForSafety }
    ensures getting_on { RuleIsNeededToGetOn }
    ensures latches { CalmIsNeeded }
{}

/// Eight rounds do not end each rendezvous.
pub fn eight_rounds_are_few()
    ensures { EightRoundsAreFew }
{}
