//! What holds of every change of a table.
ghost use Rattle.std.specs.Prelude.{◌≡◌, ◌<◌, ℕ, Bool, List, Ok, Option, length};
ghost use Rattle.fractions.specs.Fraction.{Fraction};
ghost use Rattle.plan_base.specs.declared.ids.GoodId.{GoodId};
ghost use Rattle.game_types.specs.declared.games.Game.{Game};
ghost use Rattle.game_types.specs.declared.setups.Setup.{Setup};
ghost use Rattle.game_types.specs.Goods.{good_count};
ghost use Rattle.production_table.specs.declared.tables.Table.{Table};
ghost use Rattle.production_table.specs.declared.tables.TableRow.{TableRow};
ghost use Rattle.production_table.specs.Changes.{empty_table, new_row, with_balance, with_import, with_price, with_row, with_row_at, with_surplus, with_want, without_row, HasRoom};
ghost use Rattle.production_table.specs.Numbers.{or_nothing, or_zero};
ghost use Rattle.production_table.specs.Tables.{IsOfGame, IsSoundTable};

/// Law: what a change answers undoes it.
pub fn changes_are_undone()
    ensures row { (g : Game) (label : List ℕ) (setup : Setup) (old new : Table) → with_row g label setup old ≡ Ok (tt, new)
        → without_row label new ≡ Ok ((length old.rows, new_row label setup), old) }
    ensures dropped_row { (label : List ℕ) (found : ℕ × TableRow) (old new : Table) → without_row label old ≡ Ok (found, new) → with_row_at found.0 found.1 new ≡ old }
    ensures dropped_room { (label : List ℕ) (found : ℕ × TableRow) (old new : Table) → IsSoundTable old → without_row label old ≡ Ok (found, new) → HasRoom new found.0 found.1 }
    ensures price { (label : List ℕ) (price answer : Fraction) (old new : Table) → IsSoundTable old → with_price label price old ≡ Ok (answer, new) → with_price label answer new ≡ Ok (price, old) }
    ensures want { (good : GoodId) (rate : Fraction) (answer : Option Fraction) (old new : Table) → IsSoundTable old → with_want good rate old ≡ Ok (answer, new)
        → with_want good (or_zero answer) new ≡ Ok (or_nothing rate, old) }
    ensures import { (good : GoodId) (price answer : Option Fraction) (old new : Table) → IsSoundTable old → with_import good price old ≡ Ok (answer, new) → with_import good answer new ≡ Ok (price, old) }
    ensures surplus { (good : GoodId) (price answer : Option Fraction) (old new : Table) → IsSoundTable old → with_surplus good price old ≡ Ok (answer, new) → with_surplus good answer new ≡ Ok (price, old) }
{}

/// Law: a new table names goods of the game alone, and so does what a change leaves, where the change names a good of the game.
pub fn changes_stay_in_game()
    ensures empty { (g : Game) (name : List ℕ) → IsOfGame g (empty_table name) }
    ensures row { (g : Game) (label : List ℕ) (setup : Setup) (old new : Table) → IsOfGame g old → with_row g label setup old ≡ Ok (tt, new) → IsOfGame g new }
    ensures dropped_row { (g : Game) (label : List ℕ) (found : ℕ × TableRow) (old new : Table) → IsOfGame g old → without_row label old ≡ Ok (found, new) → IsOfGame g new }
    ensures put_row { (g : Game) (place : ℕ) (row : TableRow) (t : Table) → IsOfGame g t → IsOfGame g (with_row_at place row t) }
    ensures price { (g : Game) (label : List ℕ) (price answer : Fraction) (old new : Table) → IsOfGame g old → with_price label price old ≡ Ok (answer, new) → IsOfGame g new }
    ensures want { (g : Game) (good : GoodId) (rate : Fraction) (answer : Option Fraction) (old new : Table) → good.0 < good_count g → IsOfGame g old
        → with_want good rate old ≡ Ok (answer, new) → IsOfGame g new }
    ensures import { (g : Game) (good : GoodId) (price answer : Option Fraction) (old new : Table) → good.0 < good_count g → IsOfGame g old
        → with_import good price old ≡ Ok (answer, new) → IsOfGame g new }
    ensures surplus { (g : Game) (good : GoodId) (price answer : Option Fraction) (old new : Table) → good.0 < good_count g → IsOfGame g old
        → with_surplus good price old ≡ Ok (answer, new) → IsOfGame g new }
    ensures power { (g : Game) (on : Bool) (t : Table) → IsOfGame g t → IsOfGame g (with_balance on t).1 }
{}
