//! A file that comes in pieces, a unit at a time.
ghost use Rattle.std.specs.Prelude.{◌≡◌, ◌+◌, ◌<◌, ◌≤◌, length};
ghost use Rattle.uc_bytes.specs.declared.TheConstants.{FILE_LIMIT};
ghost use Rattle.amd_file.specs.Stage.{want};

use crate::cut::end_of;
use crate::part::{AmdPart, Taken};
use crate::progress::{Progress, Stage};
use crate::unit::after_unit;
use arrayvec::ArrayVec;
use uc_bytes::FileFault;

/// What is known of the bytes of a file that came. It takes no memory, and keeps no bytes but those of a unit that did
/// not come whole: the head of a container (12 bytes), a row of its table (16), the head of a section (8), or the
/// header of a patch (64). The rest of a patch is passed over.
#[derive(Debug, Drop)]
pub struct AmdParser {
    progress: Progress,
    held: ArrayVec<u8, 64>,
    ghost begun: { progress.start ≤ progress.fed },
    ghost within: { progress.fed ≤ FILE_LIMIT },
    ghost short: { length held.items < want progress.stage },
}

impl AmdParser {
    ghost use Rattle.std.specs.Prelude.{ℕ, List, [], ◌++◌, take};
    ghost use Rattle.arrayvec.specs.ArrayVec.{array_vec_len};
    ghost use Rattle.amd_file.specs.declared.part.AmdPart.{AmdPart as Part};
    ghost use Rattle.amd_file.specs.Stage.{most};
    ghost use Rattle.amd_file.specs.Parsing.{IsInside, IsSettledFault, IsEnded};
    ghost use Rattle.amd_file.specs.Parser.{Stands, IsTaken, IsAdvanced, fed_of};

    /// A parser to which nothing came.
    pub fn new() -> AmdParser
        ensures stands { Stands [] [] result }
        ensures fed { fed_of result ≡ 0 }
    {
        AmdParser {
            progress: Progress {
                fed: 0,
                start: 0,
                patches: 0,
                stage: Stage::Head,
            },
            held: ArrayVec::new(),
        }
    }

    /// How many bytes came.
    pub fn fed(&self) -> usize
        ensures { result ≡ fed_of self.now }
    {
        self.progress.fed
    }

    /// A parser that knows the same. It takes no memory.
    pub fn copy(&self) -> AmdParser
        ensures progress { result.progress ≡ self.now.progress }
        ensures held { result.held.items ≡ self.now.held.items }
    {
        let mut held = ArrayVec::new();
        held.try_extend_from_slice(self.held.as_slice()).unwrap();
        AmdParser {
            progress: self.progress,
            held,
        }
    }

    /// Goes on with a unit behind which nothing is held.
    fn advance(&mut self, progress: Progress, unit: &[u8]) -> AmdPart
        requires begun { progress.start ≤ progress.fed }
        requires within { progress.fed ≤ FILE_LIMIT }
        requires least { want progress.stage ≤ length unit.now }
        requires most { length unit.now ≤ most progress.stage }
        requires none { array_vec_len self.old.held ≡ 0 }
        ensures fed { fed_of self.new ≡ progress.fed }
        ensures inside { IsInside (fed_of self.new) result }
        ensures advanced { IsAdvanced progress unit.now self.new result }
    {
        let step = after_unit(progress, unit);
        self.progress = step.progress;
        if step.keeps {
            self.held.try_extend_from_slice(unit).unwrap();
        }
        step.part
    }

    /// Takes from the next bytes of the file what is of one unit, at least one byte where there is one, and tells what
    /// came with it. Behind a fault it takes all, and tells the fault again.
    pub fn take(&mut self, rest: &[u8]) -> Taken
        requires { fed_of self.old + length rest.now ≤ FILE_LIMIT }
        ensures within { result.len ≤ length rest.now }
        ensures some { 0 < length rest.now → 0 < result.len }
        ensures fed { fed_of self.new ≡ fed_of self.old + result.len }
        ensures inside { IsInside (fed_of self.new) result.part }
        ensures taken { (bytes : List ℕ) (told : List Part) → Stands bytes told self.old
            → IsTaken (bytes ++ take result.len rest.now) told self.new result.part }
    {
        let stage = self.progress.stage;
        let held = self.held.len();
        let len = rest.len().min(stage.most() - held);
        let front = &rest[..len];
        let progress = Progress {
            fed: self.progress.fed + len,
            ..self.progress
        };
        let part = if held + len < stage.want() {
            self.held.try_extend_from_slice(front).unwrap();
            self.progress = progress;
            AmdPart::More
        } else if held == 0 {
            self.advance(progress, front)
        } else {
            let mut unit = self.held.take();
            unit.try_extend_from_slice(front).unwrap();
            self.advance(progress, unit.as_slice())
        };
        Taken { len, part }
    }

    /// The fault that no further bytes undo, if there is one.
    pub fn settled(&self) -> Option<FileFault>
        ensures { (bytes : List ℕ) (told : List Part) → Stands bytes told self.now → IsSettledFault bytes result }
    {
        match self.progress.stage {
            Stage::Failed(fault) => Some(fault),
            _ => None,
        }
    }

    /// The fault of the file, of which no more bytes come; none where it is whole.
    pub fn end(&self) -> Option<FileFault>
        ensures { (bytes : List ℕ) (told : List Part) → Stands bytes told self.now → IsEnded bytes told result }
    {
        end_of(self.progress, self.held.as_slice())
    }
}
