//! Laws of the definitions: each is the contract of a function that does nothing.
ghost use Rattle.std.specs.Prelude.{◌≡◌, ◌⊎◌, ℕ, List, ◌++◌};
ghost use Rattle.uc_bytes.specs.declared.causes.FileCause.{FileCause};
ghost use Rattle.amd_format.specs.File.{FileContainer, AmdFile};
ghost use Rattle.amd_format.specs.Checks.{IsFault};
ghost use Rattle.amd_format.specs.Settled.{IsSettled};

/// Bytes are an AMD file in at most one way.
pub fn one_reading()
    ensures { (bytes : List ℕ) (cs ds : List FileContainer) → AmdFile bytes cs → AmdFile bytes ds → cs ≡ ds }
{}

/// Bytes are an AMD file or have a first fault, never both, and no two faults.
pub fn reading_or_fault()
    ensures some { (bytes : List ℕ) → ((cs : List FileContainer) × AmdFile bytes cs)
        ⊎ ((offset : ℕ) × (cause : FileCause) × IsFault bytes offset cause) }
    ensures never_both { (bytes : List ℕ) (cs : List FileContainer) (offset : ℕ) (cause : FileCause)
        → AmdFile bytes cs → IsFault bytes offset cause → ⊥ }
    ensures one_fault { (bytes : List ℕ) (m n : ℕ) (c d : FileCause)
        → IsFault bytes m c → IsFault bytes n d → (m ≡ n) × (c ≡ d) }
{}

/// A fault that is not the want of bytes is that of the bytes with any that follow.
pub fn settled_stays()
    ensures { (bytes more : List ℕ) (offset : ℕ) (cause : FileCause)
        → IsSettled bytes offset cause → IsSettled (bytes ++ more) offset cause }
{}
