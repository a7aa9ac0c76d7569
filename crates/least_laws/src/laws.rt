//! What prices under which no way gains say of every table of ways.
ghost use Rattle.std.specs.Prelude.{◌≡◌, Bool, List, Ok};
ghost use Rattle.fractions.specs.Fraction.{Fraction, ◌≤ʳ◌};
ghost use Rattle.game_types.specs.declared.games.Game.{Game};
ghost use Rattle.game_types.specs.declared.setups.Setup.{Setup};
ghost use Rattle.linear_table.specs.declared.Linear.{Linear};
ghost use Rattle.production_table.specs.declared.tables.Table.{Table};
ghost use Rattle.production_table.specs.Linear.{linear_of};
ghost use Rattle.production_table.specs.Tables.{Rises};
ghost use Rattle.production_laws.specs.Balance.{table_cost, IsTablePlan};
ghost use Rattle.least_laws.specs.Ways.{worth, IsTableOfWays, NothingGains, NoWayGains, Prices, WaysBy};

/// Law: where nothing of a table gains under some prices of goods, each plan of it costs at least what its wants are worth. So
/// where no way gains, each plan of every table of these ways does; and if the wants of another table are worth the same and rates
/// of it cost exactly that, no plan of any table of these ways costs less than those rates. The goods of the wants rise, as in
/// every sound table, so that each is wanted once. The ways are those of a test, as a contract can't range over all predicates; the
/// first clause speaks of rows alone, so it holds of any ways.
pub fn prices_bound_every_table()
    ensures rows { (g : Game) (t : Table) (l : Linear) (rates : List Fraction) (prices : Prices) → linear_of g t ≡ Ok l → Rises 0 t.wants
        → NothingGains g prices t → IsTablePlan g t rates → worth prices t.wants ≤ʳ table_cost t rates }
    ensures ways { (g : Game) (t : Table) (l : Linear) (rates : List Fraction) (is_way : Setup → Bool) (costs : Setup → Fraction) (prices : Prices) → linear_of g t ≡ Ok l → Rises 0 t.wants
        → NoWayGains g t.power (WaysBy is_way) costs prices → IsTableOfWays (WaysBy is_way) costs prices t → IsTablePlan g t rates → worth prices t.wants ≤ʳ table_cost t rates }
    ensures least { (g : Game) (best t : Table) (l : Linear) (best_rates rates : List Fraction) (is_way : Setup → Bool) (costs : Setup → Fraction) (prices : Prices) → linear_of g t ≡ Ok l
        → Rises 0 t.wants → NoWayGains g t.power (WaysBy is_way) costs prices → IsTableOfWays (WaysBy is_way) costs prices t → IsTablePlan g t rates
        → worth prices best.wants ≡ worth prices t.wants → table_cost best best_rates ≡ worth prices best.wants → table_cost best best_rates ≤ʳ table_cost t rates }
{}
