ghost use Rattle.std.specs.Prelude.{◌≡◌, ◌⊎◌, ℕ, List, map};
ghost use Rattle.entry_model.specs.Reading.{Reading};
ghost use Rattle.read_model.specs.Accepts.{AreAccepted};
ghost use Rattle.read_model.specs.Reads.{Read, AreHeld, Outcome, AllRead, NotRead, Reads, IsReadable};

/// Whatever files hold, the reading of any names of them comes to an outcome where no read fails.
pub fn some_outcome()
    ensures { (names : List (List ℕ)) (holds : List ℕ → List ℕ) → IsReadable names holds }
{}

/// Where each of the named files is accepted as it is held, all are read with their readings, or a read fails.
pub fn accepted_files_are_read()
    ensures { (names : List (List ℕ)) (holds : List ℕ → List ℕ) (readings : List Reading) (reads : List Read) (outcome : Outcome)
        → AreAccepted (map holds names) readings → AreHeld holds reads → Reads names reads outcome
        → (outcome ≡ AllRead readings) ⊎ ((name : List ℕ) × (outcome ≡ NotRead name)) }
{}
