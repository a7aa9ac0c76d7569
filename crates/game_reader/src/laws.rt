//! A dump means one thing, and nothing that is looked for in it is passed over.
ghost use Rattle.std.specs.Prelude.{◌≡◌, ℕ, List, true};
ghost use Rattle.json_text.specs.Kept.{is_among};
ghost use Rattle.prototype_fields.specs.declared.names.Key.{Key};
ghost use Rattle.prototype_fields.specs.Names.{key_text};
ghost use Rattle.machine_reader.specs.declared.sections.Section.{Section};
ghost use Rattle.machine_reader.specs.Sections.{section_text};
ghost use Rattle.game_reader.specs.Keys.{dump_wishes};
ghost use Rattle.craft_reader.specs.declared.fault.DumpFault.{DumpFault};
ghost use Rattle.game_types.specs.declared.games.Game.{Game};
ghost use Rattle.game_reader.specs.Games.{HasFault, HasGame};

use json_text::one_tree;

/// A dump has at most one game, and a dump that has a game has no fault.
pub fn one_game()
    ensures one { (dump : List ℕ) (game other : Game) → HasGame dump game → HasGame dump other → game ≡ other }
    ensures faultless { (dump : List ℕ) (game : Game) (fault : DumpFault) → HasGame dump game → HasFault dump fault → ⊥ }
{
    one_tree();
}

/// Every section that is read, and every field that is read within prototypes, is kept of a dump.
pub fn keys_are_kept()
    ensures sections { (section : Section) → is_among dump_wishes.sections (section_text section) ≡ true }
    ensures fields { (key : Key) → is_among dump_wishes.fields (key_text key) ≡ true }
{}
