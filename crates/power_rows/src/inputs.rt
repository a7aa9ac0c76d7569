//! What a boiler or a generator takes in.
ghost use Rattle.std.specs.Prelude.{◌≡◌, None};
ghost use Rattle.game_types.specs.Sound.{IsSound, IsSoundSetup};
ghost use Rattle.power_rows.specs.Inputs.{first_own, filtered, fluid_in, fluid_of_input, input_of, or_no_fluid};

use fractions::Ratio;
use game_types::{Fluid, Game, MachineKind, Setup, choice_of};
use plan_base::GoodId;

/// What comes into a machine.
#[derive(Clone, Copy, Debug, PartialEq, Eq)]
pub enum Input {
    /// Nothing does: it is neither a boiler nor a generator.
    None,
    Fluid(GoodId),
    /// Any fluid would, and the set-up names none.
    Missing,
}

// The first of the row's own fluids.
fn first_own(at: &[GoodId]) -> Input
    ensures { result ≡ first_own at.now }
{
    match at {
        [good, ..] => Input::Fluid(*good),
        [] => Input::Missing,
    }
}

// What comes through a filter, or without one.
fn filtered(game: &Game, at: &[GoodId], filter: &Option<GoodId>) -> Input
    requires { IsSound game.now }
    ensures { result ≡ filtered game.now at.now filter.now }
{
    match filter {
        Some(filter) => match choice_of(game, at, *filter, None, None) {
            Some(choice) => Input::Fluid(choice),
            None => Input::Fluid(*filter),
        },
        None => first_own(at),
    }
}

#[tactic(auto, unfolding(crate::specs::Inputs::input_of))]
/// What comes into the machine of a set-up: through a filter the choice of its fluid, without one the first of the set-up's
/// own fluids. `None` exactly where the machine is neither a boiler nor a generator, `Missing` exactly where it has no filter
/// and the set-up names no fluid.
pub fn input_of(game: &Game, setup: &Setup) -> Input
    requires sound { IsSound game.now }
    requires setup { IsSoundSetup game.now setup.now }
    ensures { result ≡ input_of game.now setup.now }
{
    let at = setup.at.as_slice();
    match &game.machine(setup.machine).kind {
        MachineKind::Boiler { input, .. } => filtered(game, at, input),
        MachineKind::Generator { input, .. } => filtered(game, at, input),
        _ => Input::None,
    }
}

// A fluid that gives nothing.
fn no_fluid() -> Fluid
    ensures { result ≡ or_no_fluid None }
{
    Fluid {
        fuel_value: Ratio::zero(),
        heat_capacity: Ratio::zero(),
        default_temperature: Ratio::zero(),
        of: None,
        at: Ratio::zero(),
    }
}

// The fluid that comes in, or one that gives nothing.
fn fluid_of_input(game: &Game, input: Input) -> Fluid
    ensures { result ≡ fluid_of_input game.now input }
{
    match input {
        Input::Fluid(good) => match game.fluid(good) {
            Some(fluid) => *fluid,
            None => no_fluid(),
        },
        _ => no_fluid(),
    }
}

#[tactic(auto, unfolding(crate::specs::Inputs::fluid_in))]
// The fluid that comes into the machine of a set-up.
pub fn fluid_in(game: &Game, setup: &Setup) -> Fluid
    requires sound { IsSound game.now }
    requires setup { IsSoundSetup game.now setup.now }
    ensures { result ≡ fluid_in game.now setup.now }
{
    fluid_of_input(game, input_of(game, setup))
}
