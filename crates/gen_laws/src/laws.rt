ghost use Rattle.std.specs.Prelude.{ℕ, ◌≤◌, length};
ghost use Rattle.script_text.specs.Texts.{States as StatesScript};
ghost use Rattle.uc_gen.specs.Texts.{topology_text, script_text};
ghost use Rattle.uc_topology.specs.Texts.{States};
ghost use Rattle.gen_laws.specs.Stated.{machine_of, limits_of, script_of};

/// The generated topology states 128 cores, each a group of its own, with two threads each and what was drawn for it.
pub fn generated_topology_is_read()
    ensures { (number : ℕ) → States (topology_text number) (machine_of number) }
{}

/// The generated script states, for that machine, a boot, the threads that are drawn to go offline, and a load.
pub fn generated_script_is_read()
    ensures { (number : ℕ) → StatesScript limits_of (script_text number) (script_of number) }
{}

/// The generated texts keep to the limits of their readers, in bytes.
pub fn generated_texts_are_short()
    ensures topology { (number : ℕ) → length (topology_text number) ≤ 1048576 }
    ensures script { (number : ℕ) → length (script_text number) ≤ 16777216 }
{}
