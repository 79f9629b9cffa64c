//! What every layer above shares: little-endian words of byte lists, the vendors of update files, the causes for
//! which a file is refused, and texts that contracts see as their bytes. Nothing here takes memory but the making of
//! a text.
#![tactic(auto)]

mod causes;
mod texts;
mod words;

pub use causes::{FileAnswer, FileCause, FileFault, NoMemory, Vendor};
pub use texts::Text;
pub use words::{half_at, put_word, word_at, word_sum};

/// The greatest length of an update file, in bytes.
pub const FILE_LIMIT: u64 = 67_108_864;
