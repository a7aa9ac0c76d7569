//! What holds a row where it is.
ghost use Rattle.game_types.specs.Sound.{IsSound};

use crate::answers::{Done, push_reply, push_text};
use fractions::Ratio;
use game_types::{Effects, Game};
use plan_base::NoMemory;
use plan_lines::Reply;
use std::alloc::Global;

// Whether an effect stands at a fifth, below which none goes.
fn is_least(effect: &Ratio) -> bool {
    effect.cmp(&Ratio::part(1, 5)).is_eq()
}

fn push_floor(out: &mut String, effect: &Ratio, line: &str) -> Done {
    if is_least(effect) {
        push_text(out, line)
    } else {
        Ok(())
    }
}

fn push_floors(out: &mut String, effects: &Effects) -> Result<(), NoMemory> {
    push_floor(out, &effects.speed, "  floor speed\n")?;
    push_floor(out, &effects.consumption, "  floor consumption\n")?;
    push_floor(out, &effects.pollution, "  floor pollution\n")
}

/// Writes the reply to a `rate`, and behind it which effects stand at their floors.
pub fn push_limits(alloc: Global, out: &mut String, game: &Game, reply: &Reply) -> Done
    requires { IsSound game.now }
{
    push_reply(alloc, out, reply, game)?;
    match reply {
        Reply::Rate { effects, .. } => push_floors(out, effects),
        _ => Ok(()),
    }
}
