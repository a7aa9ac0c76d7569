//! Laws of the words of a line.
ghost use Rattle.std.specs.Prelude.{◌≡◌, ℕ, List, [], ◌∷◌, ◌++◌, Option, Result, true};
ghost use Rattle.plan_lines.specs.declared.command.Command.{Command};
ghost use Rattle.script_reader.specs.declared.fault.ScriptFault.{ScriptFault};
ghost use Rattle.script_reader.specs.Words.{ends_word, IsBare, SpellsLine, SpellsWord};
ghost use Rattle.script_reader.specs.Arguments.{command_of_words};
ghost use Rattle.script_reader.specs.Lines.{command_of_line, HasWords};

/// A line has one list of words at most. A word between quotes is the bare one, wherever it stands.
pub fn words_of_a_line()
    ensures one { (line : List ℕ) (us vs : List (List ℕ)) → SpellsLine line us → SpellsLine line vs → us ≡ vs }
    ensures quoted { (word : List ℕ) → IsBare word → SpellsWord word word × SpellsWord (34 ∷ (word ++ 34 ∷ [])) word }
    ensures anywhere { (front word rest : List ℕ) (us vs : List (List ℕ)) → IsBare word → SpellsLine front us → SpellsLine rest vs → ends_word rest ≡ true → SpellsLine (front ++ 32 ∷ (word ++ rest)) (us ++ word ∷ vs) × SpellsLine (front ++ 32 ∷ ((34 ∷ (word ++ 34 ∷ [])) ++ rest)) (us ++ word ∷ vs) }
{}

/// Words say one thing at most, and so does a line. Lines of the same words say the same.
pub fn commands_of_words()
    ensures one { (words : List (List ℕ)) (r s : Result Command ScriptFault) → command_of_words words r → command_of_words words s → r ≡ s }
    ensures line { (line : List ℕ) (r s : Result (Option Command) ScriptFault) → command_of_line line r → command_of_line line s → r ≡ s }
    ensures same { (line other : List ℕ) (words : List (List ℕ)) → HasWords line words → HasWords other words → (result : Result (Option Command) ScriptFault) → command_of_line line result → command_of_line other result }
{}
