//! What holds of every plan of a table, and of every craft of a row.
ghost use Rattle.std.specs.Prelude.{◌≡◌, ◌≢◌, ◌↔◌, All, Bool, List, Ok, map, true};
ghost use Rattle.fractions.specs.Fraction.{Fraction, negated, ◌+ʳ◌, ◌≤ʳ◌};
ghost use Rattle.plan_base.specs.declared.ids.GoodId.{GoodId};
ghost use Rattle.plan_base.specs.declared.ids.RecipeId.{RecipeId};
ghost use Rattle.plan_base.specs.declared.ids.TechId.{TechId};
ghost use Rattle.game_types.specs.declared.games.Game.{Game};
ghost use Rattle.game_types.specs.declared.setups.Activity.TheVariants.{Craft, Research};
ghost use Rattle.game_types.specs.declared.setups.Setup.{Setup};
ghost use Rattle.game_types.specs.Goods.{electricity, units_good};
ghost use Rattle.game_types.specs.Lookups.{recipe_at};
ghost use Rattle.game_types.specs.Sound.{IsSound, IsSoundSetup};
ghost use Rattle.linear_table.specs.Answer.{IsPlanned};
ghost use Rattle.linear_table.specs.Plans.{AreInfeasibilityPrices, IsPlan, cost_of};
ghost use Rattle.linear_table.specs.declared.Linear.{Linear};
ghost use Rattle.linear_table.specs.declared.Plan.{Plan};
ghost use Rattle.research_rows.specs.Research.{tech_at};
ghost use Rattle.table_rows.specs.declared.rates.RowRates.{RowRates};
ghost use Rattle.table_rows.specs.Columns.{column_of, contributions, fuel_parts, given, row_rates_of, taken};
ghost use Rattle.table_rows.specs.Setups.{IsFitting};
ghost use Rattle.production_table.specs.declared.tables.Table.{Table};
ghost use Rattle.production_table.specs.Linear.{linear_of};
ghost use Rattle.production_laws.specs.Amounts.{amount_in, or_zero, share_of, total_of};
ghost use Rattle.production_laws.specs.Balance.{setup_draw, table_cost, GoodBalance, IsTablePlan, PowerBalance, ResearchBalance};

/// Law: in every plan of a table, what its rows give of a good less what they take, and what comes in of it, is what is wanted
/// and what goes out, exactly. So it is of goods that the table doesn't mention.
pub fn goods_balance()
    ensures { (g : Game) (t : Table) (l : Linear) (rates : List Fraction) (good : GoodId) → linear_of g t ≡ Ok l → IsPlan l rates → GoodBalance g t rates good }
{}

/// Law: the plans of a table's linear form are the rates, none below 0, that balance every good of the game, and they cost the same. So no rates that balance
/// every good cost less than a plan that is answered, and there are none where the table is called infeasible.
pub fn plans_are_balances()
    ensures plans { (g : Game) (t : Table) (l : Linear) (rates : List Fraction) → linear_of g t ≡ Ok l → IsPlan l rates ↔ IsTablePlan g t rates }
    ensures cost { (g : Game) (t : Table) (l : Linear) (rates : List Fraction) → linear_of g t ≡ Ok l → cost_of l rates ≡ table_cost t rates }
    ensures least { (g : Game) (t : Table) (l : Linear) (plan : Plan) (rates : List Fraction) → linear_of g t ≡ Ok l → IsPlanned l plan → IsTablePlan g t rates → plan.cost ≤ʳ table_cost t rates }
    ensures none { (g : Game) (t : Table) (l : Linear) (prices rates : List Fraction) → linear_of g t ≡ Ok l → AreInfeasibilityPrices l prices → ¬ IsTablePlan g t rates }
{}

/// Law: in every plan of a table that balances its electric power, what is generated and what comes in of electricity is what
/// all rows draw, what is wanted and what goes out.
pub fn power_balances()
    ensures { (g : Game) (t : Table) (l : Linear) (rates : List Fraction) → IsSound g → All (λ row. IsFitting g row.setup) t.rows → t.power ≡ true
        → linear_of g t ≡ Ok l → IsPlan l rates → PowerBalance g t rates }
{}

/// Law: in every plan of a table, the rates of the labs of a technology, each times the units of one craft, and what comes in
/// are what is wanted of the technology and what goes out.
pub fn research_balances()
    ensures { (g : Game) (t : Table) (l : Linear) (rates : List Fraction) (tech : TechId) → IsSound g → All (λ row. IsFitting g row.setup) t.rows
        → linear_of g t ≡ Ok l → IsPlan l rates → ResearchBalance g t tech rates }
{}

/// Law: a column has of each good what the contributions of its row sum to; of electricity, in a table that balances it, that
/// less the draw.
pub fn columns_sum()
    ensures others { (g : Game) (power : Bool) (setup : Setup) (row : RowRates) (column : List (GoodId × Fraction)) (good : GoodId) → row_rates_of g setup ≡ Ok row
        → column_of g power setup ≡ Ok column → (electricity g).0 ≢ good.0 → amount_in column good ≡ share_of (contributions g setup row) good }
    ensures power { (g : Game) (setup : Setup) (row : RowRates) (column : List (GoodId × Fraction)) → row_rates_of g setup ≡ Ok row
        → column_of g true setup ≡ Ok column → amount_in column (electricity g) ≡ share_of (contributions g setup row) (electricity g) +ʳ negated (or_zero (setup_draw g setup)) }
{}

/// Law: one craft of a lab gives its units of the technology. Of every other good but electricity it takes exactly what the
/// technology's ingredients have of it, beside its fuel.
pub fn labs_take_packs()
    ensures units { (g : Game) (power : Bool) (setup : Setup) (tech : TechId) (row : RowRates) (column : List (GoodId × Fraction)) → IsSound g → IsSoundSetup g setup
        → setup.activity ≡ Research tech → row_rates_of g setup ≡ Ok row → column_of g power setup ≡ Ok column → amount_in column (units_good g tech) ≡ row.units }
    ensures packs { (g : Game) (power : Bool) (setup : Setup) (tech : TechId) (row : RowRates) (column : List (GoodId × Fraction)) (good : GoodId)
        → setup.activity ≡ Research tech → row_rates_of g setup ≡ Ok row → column_of g power setup ≡ Ok column → (electricity g).0 ≢ good.0 → (units_good g tech).0 ≢ good.0
        → amount_in column good ≡ negated (total_of (tech_at g tech).ingredients good) +ʳ share_of (fuel_parts g setup.fuel row.rates.fuel) good }
{}

/// Law: one craft of a recipe gives its products with their productivity and takes its ingredients, each of its choice, beside
/// its fuel and electricity.
pub fn crafts_give_and_take()
    ensures { (g : Game) (power : Bool) (setup : Setup) (recipe : RecipeId) (row : RowRates) (column : List (GoodId × Fraction)) (good : GoodId)
        → setup.activity ≡ Craft recipe → row_rates_of g setup ≡ Ok row → column_of g power setup ≡ Ok column → (electricity g).0 ≢ good.0
        → amount_in column good ≡ share_of (map (given row.effects.productivity) (recipe_at g recipe).products) good
        +ʳ share_of (map (taken g setup) (recipe_at g recipe).ingredients) good +ʳ share_of (fuel_parts g setup.fuel row.rates.fuel) good }
{}
