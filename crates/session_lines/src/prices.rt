//! Which goods the proof that a table has no plan needs.
ghost use Rattle.game_types.specs.Sound.{IsSound};

use crate::answers::{Done, push_good, push_number, push_reply, push_text, push_word};
use fractions::Ratio;
use game_types::Game;
use linear_table::SolveAnswer;
use plan_base::GoodId;
use plan_lines::Reply;
use std::alloc::Global;

fn push_needed(alloc: Global, out: &mut String, game: &Game, good: GoodId, price: &Ratio) -> Done
    requires { IsSound game.now }
{
    if price.is_zero() {
        return Ok(());
    }
    push_text(out, "  price")?;
    push_good(alloc, out, game, good)?;
    push_number(alloc, out, price)?;
    push_text(out, "\n")
}

// The goods whose price isn't 0.
fn push_prices(
    alloc: Global,
    out: &mut String,
    game: &Game,
    goods: &[GoodId],
    prices: &[Ratio],
) -> Done
    requires { IsSound game.now }
{
    for (good, price) in goods.iter().zip(prices) {
        push_needed(alloc, out, game, *good, price)?;
    }
    Ok(())
}

fn push_head(alloc: Global, out: &mut String, kind: &str, table: &str) -> Done {
    push_text(out, kind)?;
    push_word(alloc, out, table)?;
    push_text(out, "\n")
}

/// Writes which goods the proof needs that a table has no plan, or that it has one.
pub fn push_why_not(alloc: Global, out: &mut String, game: &Game, reply: &Reply) -> Done
    requires { IsSound game.now }
{
    match reply {
        Reply::Solved {
            table,
            answer: SolveAnswer::Planned(_),
            ..
        } => push_head(alloc, out, "? plan", table.as_str()),
        Reply::Solved {
            table,
            goods,
            answer: SolveAnswer::Infeasible(prices),
            ..
        } => {
            push_head(alloc, out, "? infeasible", table.as_str())?;
            push_prices(alloc, out, game, goods.as_slice(), prices.as_slice())
        }
        _ => push_reply(alloc, out, reply, game),
    }
}
