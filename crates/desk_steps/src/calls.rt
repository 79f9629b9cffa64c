//! What administrators ask for, and what they are told.

use arrayvec::ArrayVec;
use session_text::CommandAnswer;

/// A call of an administrator.
#[derive(Clone, Copy, Debug, PartialEq, Eq)]
pub enum DeskCall {
    /// Loads the desk's update file while threads run.
    Reload,
    /// Brings up a thread.
    Online(u16),
    /// Takes down a thread.
    Offline(u16),
    /// Asks for the revision of a group.
    Version(u16),
}

/// What an administrator is told.
#[derive(Clone, Copy, Debug, PartialEq, Eq)]
pub enum DeskReply {
    /// What the command of a session answers that the call is.
    Command(CommandAnswer),
    /// The revision of the group that was asked for.
    Revision(u32),
}

/// A call that was made: by which administrator, 0 or 1, what was replied, and every group's revision afterwards.
#[derive(Debug, Drop)]
pub struct DeskEntry {
    pub by: u16,
    pub call: DeskCall,
    pub reply: DeskReply,
    pub revs: ArrayVec<u32, 256>,
}
