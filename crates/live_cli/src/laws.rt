//! What holds of the texts.
ghost use Rattle.live_cli.specs.Headline.{TextsHold};

use command_laws::what_a_load_leaves;
use play_laws::{a_run_lowers_no_revision, each_run_holds, the_end_is_unlisted};
use session_laws::{each_offer_is_lent, each_state_stands, only_a_suspend_lets_a_revision_fall};

/// Whatever a text shows to be done, the headline holds of it, for every set of files, topology and script, and
/// whatever the rendezvous of its loads came to.
pub fn each_text_holds()
    ensures { TextsHold }
{
    each_run_holds();
    the_end_is_unlisted();
    a_run_lowers_no_revision();
    only_a_suspend_lets_a_revision_fall();
    what_a_load_leaves();
    each_state_stands();
    each_offer_is_lent();
}
