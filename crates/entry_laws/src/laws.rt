//! Laws of the definitions: each is the contract of a function that does nothing.
ghost use Rattle.std.specs.Prelude.{◌≡◌, ◌⊎◌, ℕ, Bool, List, Option};
ghost use Rattle.uc_bytes.specs.declared.causes.FileCause.{FileCause};
ghost use Rattle.entry_model.specs.declared.facts.CoreFacts.{CoreFacts};
ghost use Rattle.entry_model.specs.Reading.{Reading, IsReading, HasFault};
ghost use Rattle.entry_model.specs.Entry.{Entry, Entries};
ghost use Rattle.entry_model.specs.Selection.{IsOffer};

/// Bytes have a reading or a first fault, never both, and no two of either.
pub fn reading_or_fault()
    ensures some { (bytes : List ℕ) → ((r : Reading) × IsReading bytes r)
        ⊎ ((offset : ℕ) × (cause : FileCause) × HasFault bytes offset cause) }
    ensures never_both { (bytes : List ℕ) (r : Reading) (offset : ℕ) (cause : FileCause)
        → IsReading bytes r → HasFault bytes offset cause → ⊥ }
    ensures one_reading { (bytes : List ℕ) (r s : Reading) → IsReading bytes r → IsReading bytes s → r ≡ s }
    ensures one_fault { (bytes : List ℕ) (m n : ℕ) (c d : FileCause)
        → HasFault bytes m c → HasFault bytes n d → (m ≡ n) × (c ≡ d) }
{}

/// Files have at most one list of entries.
pub fn one_list_of_entries()
    ensures { (files : List (List ℕ)) (es fs : List Entry) → Entries files es → Entries files fs → es ≡ fs }
{}

/// A core is offered an entry or none, and nothing else.
pub fn just_one_offer()
    ensures some { (entries : List Entry) (core : CoreFacts) (force : Bool)
        → (offer : Option ℕ) × IsOffer entries core force offer }
    ensures one { (entries : List Entry) (core : CoreFacts) (force : Bool) (m n : Option ℕ)
        → IsOffer entries core force m → IsOffer entries core force n → m ≡ n }
{}
