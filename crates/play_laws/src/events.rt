//! The law on every event.

ghost use Rattle.play_laws.specs.Lawful.{EventLaw, OpeningIsLawful};

/// Steps, timeouts, NMIs and attempts to run ordinary code, of every thread at every moment that meets the rule, lead
/// to a moment that meets it, and the item is a step of the model between the states that these moments show. Beside
/// the rule stands that an NMI is latched only for a thread that came into the handler.
pub fn each_event_keeps_the_rule()
    ensures opening { OpeningIsLawful }
    ensures event { EventLaw }
{}
