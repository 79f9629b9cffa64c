//! Writes the lines of a session: the heading of a command, the threads that came up, what a load offers, what its
//! rendezvous came to, and the answer.
//!
//! Each line is composed in a fixed buffer and handed to the sink in one write, but for one with a long file name. The
//! texts are those of `session_text` and `session_steps`. Nothing here takes memory.
#![tactic(auto)]

mod answers;
mod headings;
mod lines;
mod loads;

pub use answers::put_answer;
pub use headings::put_heading;
pub use lines::{put_core, put_cpu, put_load_offer, put_up, put_ups};
pub use loads::{put_load_offers, put_results};
