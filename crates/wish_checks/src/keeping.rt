//! Whether a table is the wish's own: its rows, wants and prices.
ghost use Rattle.std.specs.Prelude.{◌≡◌, ◌||◌, ◌&&◌, ◌==◌, ◌<◌, All, IfOk};
ghost use Rattle.std.specs.List.{list_all};
ghost use Rattle.game_types.specs.Sound.{IsSound};
ghost use Rattle.table_rows.specs.Setups.{IsFitting};
ghost use Rattle.wish_checks.specs.Answers.{all_supplied, brings, columns_of, is_less, is_want, is_wanted, is_wished, keeps_form, keeps_rows, keeps_table, keeps_wants, same_switch};

use crate::checking::{Priced, are_reached, are_supplied, priced_columns};
use crate::supplies::{all_supplied, are_due, are_paid, brings};
use fractions::Ratio;
use game_types::Game;
use plan_base::{GoodId, Items, NoMemory};
use production_table::Table;
use std::alloc::Global;
use std::cmp::Ordering;
use wish_setups::{Met, Wish};

fn is_less(one: &Ratio, other: &Ratio) -> bool
    ensures { result ≡ is_less one.now other.now }
{
    match one.cmp(other) {
        Ordering::Less => true,
        Ordering::Equal => false,
        Ordering::Greater => false,
    }
}

// Whether a want is the wish's, or of electricity in a table that makes its own no less.
fn is_want(electric: u32, power: bool, wish: &(GoodId, Ratio), want: &(GoodId, Ratio)) -> bool
    ensures { result ≡ is_want electric power wish.now want.now }
{
    want.0.0 == wish.0.0
        && (want.1 == wish.1 || (power && want.0.0 == electric && !is_less(&want.1, &wish.1)))
}

fn is_wanted(electric: u32, power: bool, wants: &[(GoodId, Ratio)], wish: &(GoodId, Ratio)) -> bool
    ensures { result ≡ is_wanted electric power wants.now wish.now }
{
    wants
        .iter()
        .any(|want| is_want(electric, power, wish, want))
}

fn are_wanted(
    electric: u32,
    power: bool,
    wants: &[(GoodId, Ratio)],
    wishes: &[(GoodId, Ratio)],
) -> bool
    ensures { result ≡ list_all (is_wanted electric power wants.now) wishes.now }
{
    wishes
        .iter()
        .all(|wish| is_wanted(electric, power, wants, wish))
}

fn is_wished(electric: u32, power: bool, wishes: &[(GoodId, Ratio)], want: &(GoodId, Ratio)) -> bool
    ensures { result ≡ is_wished electric power wishes.now want.now }
{
    brings(want.0, wishes) || (power && want.0.0 == electric)
}

fn are_wished(
    electric: u32,
    power: bool,
    wishes: &[(GoodId, Ratio)],
    wants: &[(GoodId, Ratio)],
) -> bool
    ensures { result ≡ list_all (is_wished electric power wishes.now) wants.now }
{
    wants
        .iter()
        .all(|want| is_wished(electric, power, wishes, want))
}

fn same_switch(one: bool, other: bool) -> bool
    ensures { result ≡ same_switch one other }
{
    if one { other } else { !other }
}

// Whether the name and the power are those that were asked for.
pub fn keeps_form(name: &str, wish: &Wish, table: &Table) -> bool
    ensures { result ≡ keeps_form name.now wish.now table.now }
{
    table.name.as_str() == name && same_switch(table.power, wish.power)
}

// Whether each wished good is wanted and supplied, and nothing else wanted.
fn keeps_wants(
    game: &Game,
    reached: &[bool],
    wish: &Wish,
    table: &Table,
    columns: &[Priced],
) -> bool
    requires { IsSound game.now }
    ensures { result ≡ keeps_wants game.now reached.now wish.now table.now columns.now }
{
    let electric = game.electricity().0;
    let wants = table.wants.as_slice();
    let wishes = wish.wants.as_slice();
    are_wanted(electric, wish.power, wants, wishes)
        && are_wished(electric, wish.power, wishes, wants)
        && are_supplied(game, reached, wish, table, columns)
}

// Whether rows are of what is reached, and nothing comes in but what is due and paid for.
fn keeps_rows(
    game: &Game,
    reached: &[bool],
    wish: &Wish,
    rim: &[(GoodId, Ratio)],
    table: &Table,
    columns: &[Priced],
) -> bool
    requires { IsSound game.now }
    ensures { result ≡ keeps_rows game.now reached.now wish.now rim.now table.now columns.now }
{
    are_reached(game, reached, table.rows.as_slice())
        && are_due(game, reached, wish, rim, table.imports.as_slice())
        && are_paid(game.electricity().0, columns)
        && all_supplied(columns, table.imports.as_slice())
}

// Whether the rows, the wants and what comes in are the wish's.
fn keeps_parts(game: &Game, reached: &[bool], wish: &Wish, met: &Met, columns: &[Priced]) -> bool
    requires { IsSound game.now }
    ensures { result ≡ keeps_table game.now reached.now wish.now met.now columns.now }
{
    keeps_wants(game, reached, wish, &met.table, columns)
        && keeps_rows(game, reached, wish, met.rim.as_slice(), &met.table, columns)
}

// The prices and columns of a table's rows.
fn columns_of(alloc: Global, game: &Game, table: &Table) -> Result<Items<Priced>, NoMemory>
    requires sound { IsSound game.now }
    requires fits { All (λ row. IsFitting game.now row.setup) table.now.rows }
    ensures { IfOk result (λ columns. columns ≡ columns_of game.now table.now) }
{
    priced_columns(alloc, game, table.power, table.rows.as_slice())
}

pub fn keeps_table(
    alloc: Global,
    game: &Game,
    reached: &[bool],
    wish: &Wish,
    met: &Met,
) -> Result<bool, NoMemory>
    requires sound { IsSound game.now }
    requires fits { All (λ row. IsFitting game.now row.setup) met.now.table.rows }
    ensures { IfOk result (λ yes. yes ≡ keeps_table game.now reached.now wish.now met.now (columns_of game.now met.now.table)) }
{
    let columns = columns_of(alloc, game, &met.table)?;
    Ok(keeps_parts(game, reached, wish, met, columns.as_slice()))
}
