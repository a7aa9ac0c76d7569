//! What a machine may do.
ghost use Rattle.std.specs.Prelude.{◌≡◌, ◌<◌, ◌==◌, Option, None, Some, slice_get};
ghost use Rattle.wish_setups.specs.Choice.{boils, crafts, crafts_in, crafts_some, generates, is_drill, is_lab, is_none, is_output, may_do, pumps};

use game_types::{Activity, Game, MachineKind, Recipe, holds};
use plan_base::{EntityId, GoodId};

fn crafts_in(kind: &MachineKind, category: u32) -> bool
    ensures { result ≡ crafts_in kind.now category }
{
    match kind {
        MachineKind::Crafter { categories, .. } => holds(categories.as_slice(), category),
        _ => false,
    }
}

// Whether a machine is of a kind that crafts a recipe: its silo, where that launches rockets.
fn crafts(machine: EntityId, kind: &MachineKind, recipe: &Recipe) -> bool
    ensures { result ≡ crafts machine kind.now recipe.now.category recipe.now.launch }
{
    match recipe.launch {
        Some(silo) => silo.0 == machine.0,
        None => crafts_in(kind, recipe.category),
    }
}

fn crafts_some(game: &Game, machine: EntityId, kind: &MachineKind, place: usize) -> bool
    ensures { result ≡ crafts_some machine kind.now (slice_get game.now.recipes place) }
{
    match game.recipes.as_slice().get(place) {
        Some(recipe) => crafts(machine, kind, recipe),
        None => false,
    }
}

fn is_drill(kind: &MachineKind) -> bool
    ensures { result ≡ is_drill kind.now }
{
    match kind {
        MachineKind::Drill { .. } => true,
        _ => false,
    }
}

fn pumps(good: GoodId, kind: &MachineKind) -> bool
    ensures { result ≡ pumps good kind.now }
{
    match kind {
        MachineKind::Pump { fluid, .. } => fluid.0 == good.0,
        _ => false,
    }
}

fn is_output(good: GoodId, output: &Option<GoodId>) -> bool
    ensures { result ≡ is_output good output.now }
{
    match output {
        Some(output) => output.0 == good.0,
        None => false,
    }
}

fn boils(good: GoodId, kind: &MachineKind) -> bool
    ensures { result ≡ boils good kind.now }
{
    match kind {
        MachineKind::Boiler { output, .. } => is_output(good, output),
        _ => false,
    }
}

fn is_none(goods: &[GoodId]) -> bool
    ensures { result ≡ is_none goods.now }
{
    match goods {
        [] => true,
        [_, ..] => false,
    }
}

// Whether a machine is of a kind that makes electricity of these fluids, or where there are none of a fuel or of nothing.
fn generates(at: &[GoodId], kind: &MachineKind) -> bool
    ensures { result ≡ generates at.now kind.now }
{
    match kind {
        MachineKind::Generator { .. } => !is_none(at),
        MachineKind::BurnerGenerator { .. } => is_none(at),
        MachineKind::Solar { .. } => is_none(at),
        _ => false,
    }
}

fn is_lab(kind: &MachineKind) -> bool
    ensures { result ≡ is_lab kind.now }
{
    match kind {
        MachineKind::Lab { .. } => true,
        _ => false,
    }
}

// Whether machines of a kind may do something; what is refused for other reasons is found later.
pub fn may_do(
    game: &Game,
    machine: EntityId,
    kind: &MachineKind,
    activity: Activity,
    at: &[GoodId],
) -> bool
    ensures { result ≡ may_do game.now machine kind.now activity at.now }
{
    match activity {
        Activity::Craft(recipe) => crafts_some(game, machine, kind, recipe.0 as usize),
        Activity::Mine(_) => is_drill(kind),
        Activity::Pump(good) => pumps(good, kind),
        Activity::Generate => generates(at, kind),
        Activity::Boil(good) => boils(good, kind),
        Activity::Research(_) => is_lab(kind),
    }
}
