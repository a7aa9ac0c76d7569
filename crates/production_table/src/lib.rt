//! Production tables: rows of machines, what is wanted, what may come in and go out; and the linear form of a table.
//! Laws say that changes are undone, and that rows go on to fit a game that is edited.
#![tactic(auto)]

mod changes;
mod edit_laws;
mod faults;
mod laws;
mod linear;
mod linear_columns;
mod numbers;
mod row_lists;
mod table_places;
mod tables;

pub use edit_laws::{fitting_rows_stay, goods_stay};
pub use faults::TableFault;
pub use laws::{changes_are_undone, changes_stay_in_game};
pub use linear::LinearAndFigures;
pub use tables::{LIMIT, Table, TableRow};
