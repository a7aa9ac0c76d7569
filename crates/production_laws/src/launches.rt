//! What one craft of a launch takes.
ghost use Rattle.std.specs.Prelude.{◌≡◌, ◌≢◌, ℕ, All, Bool, List, None, Ok, Option, Some, map, pos};
ghost use Rattle.fractions.specs.Fraction.{Fraction, negated, one_fraction, whole_fraction, ◌+ʳ◌, ◌≤ʳ◌};
ghost use Rattle.plan_base.specs.declared.ids.GoodId.{GoodId};
ghost use Rattle.plan_base.specs.declared.ids.RecipeId.{RecipeId};
ghost use Rattle.game_types.specs.declared.games.Game.{Game};
ghost use Rattle.game_types.specs.declared.goods.Item.{Item};
ghost use Rattle.game_types.specs.declared.setups.Activity.TheVariants.{Craft};
ghost use Rattle.game_types.specs.declared.setups.Setup.{Setup};
ghost use Rattle.game_types.specs.Goods.{electricity};
ghost use Rattle.game_types.specs.Lookups.{recipe_at};
ghost use Rattle.game_types.specs.Sound.{IsFluid, IsItem, IsSound, IsSoundSetup};
ghost use Rattle.game_types.specs.Temperatures.{choice_of};
ghost use Rattle.power_rows.specs.Inputs.{or_good};
ghost use Rattle.depend_rows.specs.Rows.{rows_of};
ghost use Rattle.plan_base.specs.declared.ids.NodeId.{NodeId};
ghost use Rattle.reach_ranks.specs.Rounds.{world};
ghost use Rattle.rocket_launches.specs.declared.silos.Silo.{Silo};
ghost use Rattle.game_reader.specs.Games.{HasGame};
ghost use Rattle.production_laws.specs.Dumped.{HasLaunches};
ghost use Rattle.production_laws.specs.Reached.{IsLaunchOf, IsReachedByParts, LeavesUnmarked};
ghost use Rattle.rocket_launches.specs.Launches.{as_catalyst, recipe_with};
ghost use Rattle.table_rows.specs.declared.rates.RowRates.{RowRates};
ghost use Rattle.table_rows.specs.Columns.{column_of, fuel_parts, given, row_rates_of};
ghost use Rattle.production_laws.specs.Amounts.{amount_in, share_of, where_same};

/// Law: one craft of a launch takes one of its item and the parts that its silo needs, and gives what the launch brings back,
/// beside its fuel and electricity. A part that is a fluid of several temperatures is taken of the row's choice.
pub fn launches_take_item_and_parts()
    ensures { (g : Game) (power : Bool) (setup : Setup) (recipe : RecipeId) (silo : Silo) (cargo : GoodId) (item : Item) (row : RowRates) (column : List (GoodId × Fraction)) (good : GoodId)
        → IsSound g → IsSoundSetup g setup → setup.activity ≡ Craft recipe → recipe_at g recipe ≡ recipe_with silo cargo item → IsItem g cargo.0
        → row_rates_of g setup ≡ Ok row → column_of g power setup ≡ Ok column → (electricity g).0 ≢ good.0
        → amount_in column good ≡ share_of (map (given row.effects.productivity) (map as_catalyst item.launch)) good
        +ʳ negated (where_same cargo good one_fraction +ʳ where_same (or_good silo.part (choice_of g setup.at silo.part.0 None None)) good (whole_fraction (pos silo.parts)))
        +ʳ share_of (fuel_parts g setup.fuel row.rates.fuel) good }
{}

/// Law: of an item, a row's choice is the item itself.
pub fn items_choose_themselves()
    ensures { (g : Game) (at : List GoodId) (good : GoodId) → IsSound g → All (λ own. IsFluid g own.0) at → IsItem g good.0 → choice_of g at good.0 None None ≡ Some good }
{}

/// Law: a launch that no mark names is reached exactly where its item, the parts of its rocket and its silo are, whatever else is
/// barred or granted.
pub fn launches_are_reached_by_their_parts()
    ensures { (g : Game) (barred granted : List Bool) (extra : Option NodeId) (recipe : RecipeId) (silo : Silo) (cargo : GoodId) (item : Item)
        → IsLaunchOf g recipe silo cargo item → LeavesUnmarked g barred granted extra recipe → IsReachedByParts (world (rows_of g) barred granted extra) g recipe silo cargo }
{}

/// Law: the game of a dump has, behind the recipes of its prototypes, the launch of each silo with each item whose launch brings
/// something back, so that the laws here are about games that are read. Whatever is read from a dump is sound.
pub fn dumps_have_their_launches()
    ensures { (dump : List ℕ) (game : Game) → HasGame dump game → IsSound game → HasLaunches dump game }
{}

/// Law: no productivity adds to what a launch brings back, where no product's lowest amount is above its highest.
pub fn productivity_adds_nothing_to_launches()
    ensures { (one other : Fraction) (item : Item) → All (λ product. product.low ≤ʳ product.high) item.launch
        → map (given one) (map as_catalyst item.launch) ≡ map (given other) (map as_catalyst item.launch) }
{}
