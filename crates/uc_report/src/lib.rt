//! Writes what is printed: the list of files and their entries, an entry with its bytes, and what each core of a
//! machine is offered; and the lines of errors.
//!
//! Each line is composed in a fixed buffer and handed to the sink in one write, but for one with a long file name. The
//! texts are those of `report_text`. Nothing here takes memory.
#![tactic(auto)]

mod errors;
mod line;
mod lines;
mod list;
mod offers;
mod show;

pub use errors::{cause_text, put_fault, put_no_entry, put_topology_fault, put_unread, put_usage};
pub use line::Line;
pub use list::put_list;
pub use offers::put_offers;
pub use show::put_show;
