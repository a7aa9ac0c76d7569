//! The law of what rows are offered.
ghost use Rattle.std.specs.Prelude.{◌≡◌, true, Ok};
ghost use Rattle.game_types.specs.declared.games.Game.{Game};
ghost use Rattle.game_types.specs.declared.setups.Setup.{Setup};
ghost use Rattle.table_rows.specs.Setups.{checked_rest, does};
ghost use Rattle.catalog_things.specs.Choices.{is_no_wrong_machine, IsOffered};

/// Law: a row all of whose parts are offered is refused neither for its machine (K1 to K3) nor for its fuel (L1 to L4), its modules (U1 to
/// U3) or its beacons (B1, and U1 to U3 in them).
pub fn offered_rows_are_not_refused()
    ensures machine { (g : Game) (setup : Setup) → IsOffered g setup → is_no_wrong_machine (does g setup setup.activity) ≡ true }
    ensures parts { (g : Game) (setup : Setup) → IsOffered g setup → checked_rest g setup ≡ Ok tt }
{}
