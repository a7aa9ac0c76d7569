//! What holds of each accepted text and its tree.
ghost use Rattle.std.specs.Prelude.{◌≡◌, ℕ, List};
ghost use Rattle.json_text.specs.Kept.{Kept, Wishes, HasDifferentKeys};
ghost use Rattle.json_text.specs.Accepted.{IsAccepted};
ghost use Rattle.json_text.specs.Parts.{HasNumerals, HasUtf8};

/// A text has one tree at most.
pub fn one_tree()
    ensures { (wanted : Wishes) (bytes : List ℕ) (tree other : Kept)
        → IsAccepted wanted bytes tree → IsAccepted wanted bytes other → tree ≡ other }
{}

/// The numbers of a kept tree are numerals of RFC 8259, section 6.
pub fn numbers_are_numerals()
    ensures { (wanted : Wishes) (bytes : List ℕ) (tree : Kept) → IsAccepted wanted bytes tree → HasNumerals tree }
{}

/// The strings and keys of a kept tree are UTF-8.
pub fn texts_are_utf8()
    ensures { (wanted : Wishes) (bytes : List ℕ) (tree : Kept) → IsAccepted wanted bytes tree → HasUtf8 tree }
{}

/// The keys of each object of a kept tree differ.
pub fn keys_differ()
    ensures { (wanted : Wishes) (bytes : List ℕ) (tree : Kept) → IsAccepted wanted bytes tree → HasDifferentKeys tree }
{}
