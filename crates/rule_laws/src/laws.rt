//! Laws of the rule: each is the contract of a function that does nothing.

ghost use Rattle.rule_laws.specs.Laws.{OpeningIsRuled, OpeningIsShown, RuledIsSafe, RuledShows, ShowsOne};

/// The rule between steps holds when a rendezvous begins, and what stands there shows the opening state of the model.
pub fn opening_keeps_the_rule()
    ensures ruled { OpeningIsRuled }
    ensures shown { OpeningIsShown }
{}

/// A moment with the rule shows a state of the model, and only one.
pub fn the_rule_shows_one_state()
    ensures shows { RuledShows }
    ensures one { ShowsOne }
{}

/// A state that a moment with the rule shows is safe: no thread of a group is outside the handler while the group is
/// written.
pub fn the_rule_is_safe()
    ensures { RuledIsSafe }
{}
