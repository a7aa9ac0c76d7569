//! What the hints say of the run, and how much that is.
ghost use Rattle.std.specs.Prelude.{◌≡◌, ◌⊎◌, ℕ, List, [], Option, Some, true};
ghost use Rattle.run_inputs.specs.Words.{ThreeWords, three_of};
ghost use Rattle.run_inputs.specs.declared.status.Status.{Status};
ghost use Rattle.program_runs.specs.Hints.{IsLine, hint_line, hint_of, is_unbroken};
ghost use Rattle.program_runs.specs.Names.{dump_name, script_name};

/// The names of the dump and the script are the second and the third of the three words that a run takes.
pub fn names_are_of_the_run()
    ensures { (words : List (List ℕ)) (three : ThreeWords) → three_of words ≡ Some three → (dump_name words ≡ Some three.first) × (script_name words ≡ Some three.second) }
{}

/// Whatever names and texts a dump holds, nothing is said, or one line.
pub fn hints_are_lines()
    ensures hint { (status : Status) (words : List (List ℕ)) (cert dump : Option (List ℕ)) → (hint_of status words cert dump ≡ []) ⊎ IsLine (hint_of status words cert dump) }
    ensures unread { (file : Option (List ℕ)) (why : List ℕ) → is_unbroken why ≡ true → IsLine (hint_line file why) }
{}
