//! Laws of the definitions: each is the contract of a function that does nothing.
ghost use Rattle.std.specs.Prelude.{◌≡◌, ◌⊎◌, ℕ, List};
ghost use Rattle.script_text.specs.declared.fault.ScriptFault.{ScriptFault};
ghost use Rattle.script_text.specs.declared.forms.Limits.{Limits};
ghost use Rattle.script_text.specs.Stated.{Stated};
ghost use Rattle.script_text.specs.Texts.{States, FirstFault};
ghost use Rattle.script_text.specs.Within.{IsWithin};

/// For a machine, each text states one script or has one first fault, and never both.
pub fn each_text_reads_one_way()
    ensures reads { (limits : Limits) (text : List ℕ) →
        ((script : Stated) × States limits text script) ⊎ ((fault : ScriptFault) × FirstFault limits text fault) }
    ensures one_script { (limits : Limits) (text : List ℕ) (one other : Stated) → States limits text one →
        States limits text other → one ≡ other }
    ensures one_fault { (limits : Limits) (text : List ℕ) (one other : ScriptFault) → FirstFault limits text one →
        FirstFault limits text other → one ≡ other }
    ensures never_both { (limits : Limits) (text : List ℕ) (script : Stated) (fault : ScriptFault) →
        States limits text script → FirstFault limits text fault → ⊥ }
{}

/// A script that a text states for a machine has only threads and cores of it, and keeps to the limits of names,
/// commands and events.
pub fn scripts_keep_to_their_limits()
    ensures { (limits : Limits) (text : List ℕ) (script : Stated) → States limits text script → IsWithin limits script }
{}
