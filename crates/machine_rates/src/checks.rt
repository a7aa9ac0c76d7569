//! Whether a machine does what it is set to do.
ghost use Rattle.std.specs.Prelude.{◌≡◌};
ghost use Rattle.game_types.specs.Making.{is_fixed_to_another};
ghost use Rattle.game_types.specs.Rates.{crafts, crafts_or_launches, has_box, mines, pumps, checked_machine};
ghost use Rattle.game_types.specs.Sound.{IsSound, IsSoundSetup};

use fractions::Ratio;
use game_types::{Activity, Game, MachineFault, MachineKind, Recipe, Setup, Source, holds};
use plan_base::{EntityId, GoodId, RecipeId};

// Whether a machine that is fixed to a recipe, or to none, doesn't craft this one.
fn is_fixed_to_another(fixed: Option<RecipeId>, recipe: RecipeId) -> bool
    ensures { result ≡ is_fixed_to_another fixed recipe.0 }
{
    match fixed {
        Some(fixed) => fixed.0 != recipe.0,
        None => false,
    }
}

// Whether a machine crafts a recipe.
fn crafts(kind: &MachineKind, number: RecipeId, recipe: &Recipe) -> Result<(), MachineFault>
    ensures { result ≡ crafts kind.now number recipe.now }
{
    match kind {
        MachineKind::Crafter {
            categories,
            fixed,
            ..
        } => {
            if !holds(categories.as_slice(), recipe.category) {
                Err(MachineFault::Category)
            } else if is_fixed_to_another(*fixed, number) {
                Err(MachineFault::Fixed)
            } else {
                Ok(())
            }
        }
        _ => Err(MachineFault::Category),
    }
}

// Whether a machine crafts a recipe, which for a launch its silo does.
fn crafts_or_launches(
    machine: EntityId,
    kind: &MachineKind,
    number: RecipeId,
    recipe: &Recipe,
) -> Result<(), MachineFault>
    ensures { result ≡ crafts_or_launches machine kind.now number recipe.now recipe.now.launch }
{
    match recipe.launch {
        Some(silo) => {
            if silo.0 == machine.0 {
                Ok(())
            } else {
                Err(MachineFault::Category)
            }
        }
        None => crafts(kind, number, recipe),
    }
}

// Whether a drill has a box for the fluid that a source needs, if any.
fn has_box(fluid_box: bool, fluid: &Option<(GoodId, Ratio)>) -> Result<(), MachineFault>
    ensures { result ≡ has_box fluid_box fluid.now }
{
    match fluid {
        Some((good, _)) => {
            if fluid_box {
                Ok(())
            } else {
                Err(MachineFault::NoBox(*good))
            }
        }
        None => Ok(()),
    }
}

// Whether a machine mines a source.
fn mines(kind: &MachineKind, source: &Source) -> Result<(), MachineFault>
    ensures { result ≡ mines kind.now source.now }
{
    match kind {
        MachineKind::Drill {
            categories,
            fluid_box,
            ..
        } => {
            if source.drilled && holds(categories.as_slice(), source.category) {
                has_box(*fluid_box, &source.fluid)
            } else {
                Err(MachineFault::Category)
            }
        }
        _ => Err(MachineFault::Category),
    }
}

// Whether a machine pumps a fluid.
fn pumps(kind: &MachineKind, good: GoodId) -> Result<(), MachineFault>
    ensures { result ≡ pumps kind.now good }
{
    match kind {
        MachineKind::Pump { fluid, .. } => {
            if fluid.0 == good.0 {
                Ok(())
            } else {
                Err(MachineFault::Category)
            }
        }
        _ => Err(MachineFault::Category),
    }
}

#[tactic(auto, unfolding(game_types::specs::Rates::checked_machine))]
/// Whether the machine of a set-up does what it is set to do. Making electricity, heating fluids and research are none of
/// what is planned here.
///
/// # Errors
///
/// The first of these, exactly: `Category` (K1) where machines of its kind don't do it, the source isn't drilled, the
/// machine lacks the category, it pumps another fluid, or the recipe is a launch from another machine; `Fixed` (K2) where it
/// is fixed to another recipe and the recipe is no launch; `NoBox` (K3) where the source needs a fluid and the drill has no
/// box for it, with the fluid.
pub fn check_machine(game: &Game, setup: &Setup) -> Result<(), MachineFault>
    requires sound { IsSound game.now }
    requires setup { IsSoundSetup game.now setup.now }
    ensures { result ≡ checked_machine game.now setup.now }
{
    let kind = &game.machine(setup.machine).kind;
    match setup.activity {
        Activity::Craft(recipe) => {
            crafts_or_launches(setup.machine, kind, recipe, game.recipe(recipe))
        }
        Activity::Mine(source) => mines(kind, game.source(source)),
        Activity::Pump(good) => pumps(kind, good),
        Activity::Generate => Err(MachineFault::Category),
        Activity::Boil(_) => Err(MachineFault::Category),
        Activity::Research(_) => Err(MachineFault::Category),
    }
}
