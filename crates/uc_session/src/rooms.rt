//! What is lent to each command.

use session_parts::LoadTables;
use std::alloc::Global;
use uc_bytes::NoMemory;
use uc_rendezvous::Outcome;
use update_reads::PIECE;

/// What is lent to each command, so that none has to make it. What it holds between two commands means nothing.
#[derive(Drop)]
pub struct Room {
    /// For the pieces of files.
    pub piece: Box<[u8; PIECE]>,
    pub tables: LoadTables,
    /// What the rendezvous came to.
    pub outcome: Outcome,
}

impl Room {
    /// The room of no command. It answers want of memory and nothing else.
    pub fn new(alloc: Global) -> Result<Room, NoMemory> {
        Ok(Room {
            piece: Box::new(alloc, [0; PIECE])?,
            tables: LoadTables::new(),
            outcome: Outcome::new(),
        })
    }
}
