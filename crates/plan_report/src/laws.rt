//! Laws of printed words.
ghost use Rattle.std.specs.Prelude.{ℕ, List, map};
ghost use Rattle.plan_base.specs.declared.shape.Kind.{Kind};
ghost use Rattle.script_reader.specs.Fields.{IsName, WritesObject};
ghost use Rattle.script_reader.specs.Words.{SpellsLine, SpellsWord};
ghost use Rattle.plan_report.specs.Layout.{spaced};
ghost use Rattle.plan_report.specs.Words.{object_word, printed_word};

/// A reader of words takes a printed word for the word itself, printed words behind spaces for a line of these words, and
/// the printed name of an object for the word that writes the object.
pub fn printed_words_are_read()
    ensures word { (word : List ℕ) → SpellsWord (printed_word word) word }
    ensures line { (words : List (List ℕ)) → SpellsLine (spaced (map printed_word words)) words }
    ensures object { (kind : Kind) (name : List ℕ) → IsName kind name → (word : List ℕ) × SpellsWord (object_word kind name) word × WritesObject word kind name }
{}
