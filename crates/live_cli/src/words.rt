//! The rule of the command line.
ghost use Rattle.live_cli.specs.Words.{Asks, live_asked};

use uc_bytes::Text;
use uc_cli::is_name;

/// The names of a topology and of a script.
#[derive(Clone, Copy, Debug)]
pub struct Named<'a> {
    pub topology: &'a Text,
    pub script: &'a Text,
}

/// The names that the words give, or the index of the first word that cannot stand in its place, which is the number of
/// words where one is missing.
pub fn read_words(words: &[Text]) -> Result<Named<'_>, u32>
    ensures { Asks (live_asked words.now) result }
{
    match words {
        [] => Err(0),
        [topology, ..] if !is_name(topology) => Err(0),
        [_topology] => Err(1),
        [_, script, ..] if !is_name(script) => Err(1),
        [topology, script, more @ ..] => {
            if more.is_empty() {
                Ok(Named { topology, script })
            } else {
                Err(2)
            }
        }
    }
}
