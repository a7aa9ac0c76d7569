//! What edits of the game leave of a table's rows.
ghost use Rattle.std.specs.Prelude.{◌≡◌, Ok};
ghost use Rattle.data_edit.specs.declared.books.Book.{Book};
ghost use Rattle.data_edit.specs.declared.edits.Edit.{Edit};
ghost use Rattle.data_edit.specs.Edits.{effect};
ghost use Rattle.game_types.specs.declared.setups.Setup.{Setup};
ghost use Rattle.production_table.specs.declared.tables.Table.{Table};
ghost use Rattle.production_table.specs.Tables.{IsOfGame};
ghost use Rattle.table_rows.specs.Setups.{IsFitting};

/// Law: a row's set-up that fits the game fits it after any edit. An edit gives no ingredient a bound of temperature, and one
/// without bounds always has a fit.
pub fn fitting_rows_stay()
    ensures { (edit : Edit) (old new : Book) (setup : Setup) → effect edit old ≡ Ok new → IsFitting old.game setup → IsFitting new.game setup }
{}

/// Law: a table that names goods of a game alone does so after any edit of the game.
pub fn goods_stay()
    ensures { (edit : Edit) (old new : Book) (table : Table) → effect edit old ≡ Ok new → IsOfGame old.game table → IsOfGame new.game table }
{}
