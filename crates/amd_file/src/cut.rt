//! What the bytes that came are where no more come.
ghost use Rattle.std.specs.Prelude.{◌≡◌, ◌↔◌, ◌<◌, ◌≤◌, ℕ, IsTrue, List, Some, length};
ghost use Rattle.uc_bytes.specs.Words.{word};
ghost use Rattle.amd_format.specs.Equiv.{amd_magic};
ghost use Rattle.amd_file.specs.declared.part.AmdPart.{AmdPart};
ghost use Rattle.amd_file.specs.Stage.{want};
ghost use Rattle.amd_file.specs.Parsing.{StandsWith, IsInNext, IsEnded};
ghost use Rattle.amd_file.specs.Step.{fault_of};

use crate::progress::{Progress, Stage};
use amd_equiv::AMD_MAGIC;
use uc_bytes::{FileCause, FileFault, word_at};

/// The container or section in which the bytes end is cut off.
fn cut_off(progress: Progress, cause: FileCause) -> Option<FileFault>
    ensures { result ≡ Some (fault_of progress cause) }
{
    Some(FileFault {
        offset: progress.start as u64,
        cause,
    })
}

/// Whether the magic of a container begins the bytes.
fn begins_container(held: &[u8]) -> bool
    ensures { IsTrue result ↔ ((4 ≤ length held.now) × (word held.now 0 ≡ amd_magic)) }
{
    held.len() >= 4 && word_at(held, 0) == AMD_MAGIC
}

/// The bytes end behind a table or a section, or within the first bytes that follow.
fn end_of_next(progress: Progress, held: &[u8]) -> Option<FileFault>
    requires { length held.now < 8 }
    ensures { (bytes : List ℕ) (told : List AmdPart)
        → IsInNext bytes told progress.fed progress.start progress.patches held.now → IsEnded bytes told result }
{
    if held.is_empty() {
        return None;
    }
    if begins_container(held) {
        return cut_off(progress, FileCause::EquivShort);
    }
    cut_off(progress, FileCause::SectionShort)
}

/// The fault of the bytes, of which these are held; none where they are a file.
pub fn end_of(progress: Progress, held: &[u8]) -> Option<FileFault>
    requires { length held.now < want progress.stage }
    ensures { (bytes : List ℕ) (told : List AmdPart) → StandsWith bytes told progress held.now
        → IsEnded bytes told result }
{
    match progress.stage {
        Stage::Head => cut_off(progress, FileCause::EquivShort),
        Stage::Next => end_of_next(progress, held),
        Stage::Rows(_, _) => cut_off(progress, FileCause::TableCut),
        Stage::Tail(_) => cut_off(progress, FileCause::TableCut),
        Stage::Header(_) => cut_off(progress, FileCause::PatchCut),
        Stage::Body(_, _) => cut_off(progress, FileCause::PatchCut),
        Stage::Failed(fault) => Some(fault),
    }
}
