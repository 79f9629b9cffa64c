//! What comes with a piece of an AMD file, gathered.
ghost use Rattle.std.specs.Prelude.{◌≡◌, ◌+◌, ◌≤◌, ◌++◌, ℕ, List, OnOk, length, take, vec_len};
ghost use Rattle.uc_bytes.specs.declared.TheConstants.{FILE_LIMIT};
ghost use Rattle.amd_file.specs.Parser.{fed_of};
ghost use Rattle.file_rows.specs.PatchWalk.{Gathers};

use crate::gathered::Gathered;
use amd_file::AmdParser;
use uc_bytes::NoMemory;

/// Gathers what comes with a piece, unless memory runs out within it. What stood before stays.
pub fn gather_piece(
    parser: &mut AmdParser,
    gathered: &mut Gathered,
    piece: &[u8],
) -> Result<(), NoMemory>
    requires short { fed_of parser.old + length piece.now ≤ FILE_LIMIT }
    requires few_table { length gathered.old.table.items ≤ fed_of parser.old }
    requires few_fresh { length gathered.old.fresh.items ≤ fed_of parser.old }
    ensures fed { fed_of parser.new ≤ fed_of parser.old + length piece.now }
    ensures few_table { length gathered.new.table.items ≤ fed_of parser.new }
    ensures few_fresh { length gathered.new.fresh.items ≤ fed_of parser.new }
    ensures gathers { OnOk result ((bytes : List ℕ) → Gathers bytes parser.old gathered.old
        → Gathers (bytes ++ piece.now) parser.new gathered.new) }
    ensures rows { take (vec_len gathered.old.rows.rows) gathered.new.rows.rows.items ≡ gathered.old.rows.rows.items }
    ensures tables { take (vec_len gathered.old.rows.tables) gathered.new.rows.tables.items
        ≡ gathered.old.rows.tables.items }
    ensures table { take (vec_len gathered.old.table) gathered.new.table.items ≡ gathered.old.table.items }
{
    let mut at = 0;
    'piece: while at < piece.len() {
        let taken = parser.take(&piece[at..]);
        at += taken.len;
        gathered.add(taken.part)?;
    }
    Ok(())
}
