//! What whole machines draw.
ghost use Rattle.game_types.specs.Sound.{IsSound};

use crate::pricing::{idle_draw, plus, times};
use fractions::Ratio;
use game_types::{Effects, Game, Rates};
use production_table::{Table, TableRow};
use wish_setups::figures_of;

/// The watts that a plan's machines draw.
#[derive(Clone, Copy)]
pub struct Draw {
    /// By whole machines.
    pub whole: Ratio,
    /// Beyond what the table balances, which draws for fractions of machines.
    pub beyond: Ratio,
}

// What whole machines draw at a rate, and how much of that is beyond what fractions of machines do.
fn draw_at(figures: &(Effects, Rates, Ratio), rate: &Ratio) -> Draw {
    let idle = idle_draw(figures);
    let machines = times(*rate, &figures.1.machines);
    let count = machines.ceil();
    let missing = plus(count, &machines.neg());
    Draw {
        whole: plus(times(*rate, &figures.1.power), &times(count, &idle)),
        beyond: times(missing, &idle),
    }
}

fn no_draw() -> Draw {
    Draw {
        whole: Ratio::zero(),
        beyond: Ratio::zero(),
    }
}

// What whole machines of a row draw at a rate.
fn row_draw(game: &Game, row: &TableRow, rate: &Ratio) -> Draw
    requires { IsSound game.now }
{
    match figures_of(game, &row.setup) {
        Some(figures) => draw_at(&figures, rate),
        None => no_draw(),
    }
}

/// What the rows of a table draw at these rates.
pub fn draw_of(game: &Game, table: &Table, rates: &[Ratio]) -> Draw
    requires { IsSound game.now }
{
    let mut draw = no_draw();
    for (row, rate) in table.rows.as_slice().iter().zip(rates.iter()) {
        let own = row_draw(game, row, rate);
        draw.whole = plus(draw.whole, &own.whole);
        draw.beyond = plus(draw.beyond, &own.beyond);
    }
    draw
}
