//! What the units of a file tell: the head of a container, a row of its table, the head of a section, the header of a
//! patch, and bytes that are passed over.
ghost use Rattle.std.specs.Prelude.{◌≡◌, ◌+◌, ◌≤◌, length};
ghost use Rattle.uc_bytes.specs.declared.TheConstants.{FILE_LIMIT};
ghost use Rattle.amd_file.specs.declared.progress.Stage.TheVariants.{Head, Next, Rows, Tail, Header, Body};
ghost use Rattle.amd_file.specs.Stage.{want, most};
ghost use Rattle.amd_file.specs.Parsing.{IsHeaderOf};
ghost use Rattle.amd_file.specs.Step.{IsStepFrom, IsEndStep, fault_step, onward_step, table_step};

use crate::container::AmdPatch;
use crate::family::{is_past_bound, patch_family};
use crate::part::{AmdHead, AmdPart};
use crate::progress::{PatchHeader, Progress, Stage};
use amd_equiv::{AMD_MAGIC, EquivFault, read_equiv};
use uc_bytes::{FileCause, FileFault, half_at, word_at};

/// How many patches a file may have.
const MOST_PATCHES: usize = 65_536;

/// How far the bytes reach with a unit, and what it tells.
#[derive(Clone, Copy, Debug)]
pub struct Step {
    pub progress: Progress,
    pub part: AmdPart,
    /// The unit is the front of a longer one.
    pub keeps: bool,
}

/// The container or section in which the bytes end has this fault.
fn failed(progress: Progress, cause: FileCause) -> Step
    ensures { result ≡ fault_step progress cause }
{
    let fault = FileFault {
        offset: progress.start as u64,
        cause,
    };
    Step {
        progress: Progress {
            stage: Stage::Failed(fault),
            ..progress
        },
        part: AmdPart::Fault(fault),
        keeps: false,
    }
}

/// The bytes end in another stage.
fn onward(progress: Progress, stage: Stage, part: AmdPart) -> Step
    ensures { result ≡ onward_step progress stage part }
{
    Step {
        progress: Progress { stage, ..progress },
        part,
        keeps: false,
    }
}

/// The bytes end with a container's table.
fn table_end(progress: Progress, part: AmdPart) -> Step
    ensures { result ≡ table_step progress part }
{
    Step {
        progress: Progress {
            start: progress.fed,
            stage: Stage::Next,
            ..progress
        },
        part,
        keeps: false,
    }
}

/// The head of a container, which is read alone, so that its table is cut off where all is well.
fn after_head(progress: Progress, unit: &[u8]) -> Step
    requires begun { progress.start ≤ progress.fed }
    requires unit { length unit.now ≡ 12 }
    ensures { IsStepFrom Head progress unit.now result }
{
    match read_equiv(unit) {
        Err(EquivFault::Short) => failed(progress, FileCause::EquivShort),
        Err(EquivFault::Magic) => failed(progress, FileCause::Magic),
        Err(EquivFault::Type0) => failed(progress, FileCause::EquivType),
        Err(EquivFault::TableSmall) => failed(progress, FileCause::TableSmall),
        Err(EquivFault::TableCut) => {
            let table_len = word_at(unit, 8);
            let head = AmdHead {
                start: progress.start as u64,
                table_len,
            };
            let rows = Stage::Rows(table_len / 16 - 1, table_len % 16);
            onward(progress, rows, AmdPart::Container(head))
        }
        Ok(_) => onward(progress, progress.stage, AmdPart::More),
    }
}

/// The first bytes behind a table or a section: the front of a container's head, or the head of a section.
fn after_next(progress: Progress, unit: &[u8]) -> Step
    requires begun { progress.start ≤ progress.fed }
    requires unit { length unit.now ≡ 8 }
    ensures { IsStepFrom Next progress unit.now result }
{
    let first = word_at(unit, 0);
    if first == AMD_MAGIC {
        return Step {
            progress: Progress {
                stage: Stage::Head,
                ..progress
            },
            part: AmdPart::More,
            keeps: true,
        };
    }
    if first != 1 {
        return failed(progress, FileCause::SectionType);
    }
    let size = word_at(unit, 4);
    if size < 64 {
        return failed(progress, FileCause::PatchSmall);
    }
    onward(progress, Stage::Header(size), AmdPart::More)
}

/// A row of a table.
fn after_row(progress: Progress, unit: &[u8], more: u32, tail: u32) -> Step
    requires begun { progress.start ≤ progress.fed }
    requires unit { length unit.now ≡ 16 }
    ensures { IsStepFrom (Rows more tail) progress unit.now result }
{
    let row = AmdPart::Row((word_at(unit, 0), half_at(unit, 12)));
    if more > 0 {
        onward(progress, Stage::Rows(more - 1, tail), row)
    } else if tail > 0 {
        onward(progress, Stage::Tail(tail - 1), row)
    } else {
        table_end(progress, row)
    }
}

/// Bytes behind the last row of a table.
fn after_tail(progress: Progress, unit: &[u8], left: u32) -> Step
    requires begun { progress.start ≤ progress.fed }
    requires unit { length unit.now ≤ left + 1 }
    ensures { IsStepFrom (Tail left) progress unit.now result }
{
    if unit.len() <= left as usize {
        let left = left - unit.len() as u32;
        onward(progress, Stage::Tail(left), AmdPart::More)
    } else {
        table_end(progress, AmdPart::More)
    }
}

/// A patch that came whole. Linux 6.7, `arch/x86/kernel/cpu/microcode/amd.c`, verify_patch.
fn patch_end(progress: Progress, header: PatchHeader) -> Step
    requires begun { progress.start ≤ progress.fed }
    requires within { progress.fed ≤ FILE_LIMIT }
    ensures { IsEndStep progress header result }
{
    if is_past_bound(patch_family(header.id), header.len) {
        return failed(progress, FileCause::FamilySize);
    }
    if header.for_chipset {
        return failed(progress, FileCause::Chipset);
    }
    if progress.patches >= MOST_PATCHES {
        return failed(progress, FileCause::TooMany);
    }
    let patch = AmdPatch {
        start: progress.start as u64 + 8,
        len: u64::from(header.len),
        rev: header.rev,
        id: header.id,
    };
    Step {
        progress: Progress {
            fed: progress.fed,
            start: progress.fed,
            patches: progress.patches + 1,
            stage: Stage::Next,
        },
        part: AmdPart::Patch(patch),
        keeps: false,
    }
}

/// A patch's header.
fn read_header(unit: &[u8], len: u32) -> PatchHeader
    requires { length unit.now ≡ 64 }
    ensures len { result.len ≡ len }
    ensures header { IsHeaderOf unit.now result }
{
    PatchHeader {
        len,
        rev: word_at(unit, 4),
        id: half_at(unit, 24),
        for_chipset: word_at(unit, 16) != 0 || word_at(unit, 20) != 0,
    }
}

/// The header of a patch.
fn after_header(progress: Progress, unit: &[u8], size: u32) -> Step
    requires begun { progress.start ≤ progress.fed }
    requires within { progress.fed ≤ FILE_LIMIT }
    requires unit { length unit.now ≡ 64 }
    ensures { IsStepFrom (Header size) progress unit.now result }
{
    let header = read_header(unit, size);
    if size > 64 {
        onward(progress, Stage::Body(header, size - 65), AmdPart::More)
    } else {
        patch_end(progress, header)
    }
}

/// Bytes behind the header of a patch.
fn after_body(progress: Progress, unit: &[u8], header: PatchHeader, left: u32) -> Step
    requires begun { progress.start ≤ progress.fed }
    requires within { progress.fed ≤ FILE_LIMIT }
    requires unit { length unit.now ≤ left + 1 }
    ensures { IsStepFrom (Body header left) progress unit.now result }
{
    if unit.len() <= left as usize {
        let left = left - unit.len() as u32;
        onward(progress, Stage::Body(header, left), AmdPart::More)
    } else {
        patch_end(progress, header)
    }
}

/// How far the bytes reach with a unit that ends them, and what it tells.
pub fn after_unit(progress: Progress, unit: &[u8]) -> Step
    requires begun { progress.start ≤ progress.fed }
    requires within { progress.fed ≤ FILE_LIMIT }
    requires least { want progress.stage ≤ length unit.now }
    requires most { length unit.now ≤ most progress.stage }
    ensures { IsStepFrom progress.stage progress unit.now result }
{
    match progress.stage {
        Stage::Head => after_head(progress, unit),
        Stage::Next => after_next(progress, unit),
        Stage::Rows(more, tail) => after_row(progress, unit, more, tail),
        Stage::Tail(left) => after_tail(progress, unit, left),
        Stage::Header(size) => after_header(progress, unit, size),
        Stage::Body(header, left) => after_body(progress, unit, header, left),
        Stage::Failed(fault) => onward(progress, progress.stage, AmdPart::Fault(fault)),
    }
}
