//! The fastest reached machines of each category.
ghost use Rattle.game_types.specs.Sound.{IsSound};

use crate::numbers::float_of;
use fractions::is_positive;
use game_types::{Energy, Game, Machine, MachineKind, Recipe};
use plan_base::{EntityId, GoodId, Kind, NoMemory, RecipeId};
use std::alloc::Global;
use wish_setups::{State, is_marked, is_reached, mark};

/// A machine that crafts, and what it takes, nearly.
#[derive(Clone, Copy)]
pub struct Crafter {
    pub speed: f64,
    /// Watts of electricity.
    pub power: f64,
    /// Pollution a minute.
    pub pollution: f64,
}

/// The fastest machine of each category, and those that are fixed to a recipe.
#[derive(Drop)]
pub struct Crafters {
    by_category: Vec<Option<Crafter>>,
    fixed: Vec<(RecipeId, Crafter)>,
    // Marks for each category of fuels whether a reached item burns in it.
    burning: Vec<bool>,
}

fn mark_category(burning: &mut [bool], category: u32) {
    mark(burning, category as usize);
}

fn mark_fuel(game: &Game, good: GoodId, burning: &mut [bool]) {
    if let Some(item) = game.items.as_slice().get(good.0 as usize) {
        if let Some(fuel) = item.fuel {
            if is_positive(&fuel.value) {
                mark_category(burning, fuel.category);
            }
        }
    }
}

fn mark_fuels(game: &Game, fuels: &[GoodId], burning: &mut [bool]) {
    for good in fuels {
        mark_fuel(game, *good, burning);
    }
}

fn burns_some(categories: &[u32], burning: &[bool]) -> bool {
    categories
        .iter()
        .any(|category| is_marked(burning, *category as usize))
}

// Whether a machine of this energy can be a row.
fn can_run(energy: &Energy, burning: &[bool]) -> bool {
    match energy {
        Energy::Electric | Energy::Void => true,
        Energy::Burner { categories, .. } => burns_some(categories.as_slice(), burning),
        Energy::Heat | Energy::Fluid { .. } => false,
    }
}

fn crafter_of(machine: &Machine, speed: f64) -> Crafter {
    let electric = matches!(machine.energy, Energy::Electric);
    Crafter {
        speed,
        power: if electric {
            float_of(&machine.usage)
        } else {
            0.0
        },
        pollution: float_of(&machine.emissions),
    }
}

// The faster one of the best so far and another.
fn faster(best: Option<Crafter>, other: Crafter) -> Option<Crafter> {
    match best {
        Some(best) if best.speed >= other.speed => Some(best),
        _ => Some(other),
    }
}

impl Crafters {
    /// Those of the reached machines.
    pub fn of(alloc: Global, game: &Game, state: State<'_>) -> Result<Crafters, NoMemory>
        requires { IsSound game.now }
    {
        let count = game.categories.len() as usize;
        let mut crafters = Crafters {
            by_category: vec![in alloc; None; count]?,
            fixed: Vec::new(alloc),
            burning: vec![in alloc; false; count]?,
        };
        mark_fuels(game, state.fuels, crafters.burning.as_mut_slice());
        crafters.add_all(game, state)?;
        Ok(crafters)
    }

    fn add_all(&mut self, game: &Game, state: State<'_>) -> Result<(), NoMemory>
        requires { IsSound game.now }
    {
        for place in 0..game.shape().machines {
            if is_reached(game, state.reached, Kind::Machine, place) {
                if let Some(machine) = game.machines.as_slice().get(place as usize) {
                    self.add(machine)?;
                }
            }
        }
        Ok(())
    }

    fn add(&mut self, machine: &Machine) -> Result<(), NoMemory> {
        if !can_run(&machine.energy, self.burning.as_slice()) {
            return Ok(());
        }
        match &machine.kind {
            MachineKind::Crafter {
                speed,
                categories,
                fixed,
            } => {
                let crafter = crafter_of(machine, float_of(speed));
                match fixed {
                    Some(recipe) => {
                        self.fixed.push((*recipe, crafter))?;
                    }
                    None => self.add_to(categories.as_slice(), crafter),
                }
                Ok(())
            }
            _ => Ok(()),
        }
    }

    fn add_to(&mut self, categories: &[u32], crafter: Crafter) {
        for category in categories {
            if let Some(best) = self.by_category.as_mut_slice().get_mut(*category as usize) {
                *best = faster(*best, crafter);
            }
        }
    }

    fn fixed_to(&self, recipe: RecipeId) -> Option<Crafter> {
        for fixed in self.fixed.as_slice() {
            if fixed.0.0 == recipe.0 {
                return Some(fixed.1);
            }
        }
        None
    }

    // The silo that launches rockets.
    fn silo(&self, game: &Game, reached: &[bool], silo: EntityId) -> Option<Crafter>
        requires { IsSound game.now }
    {
        if !is_reached(game, reached, Kind::Machine, silo.0) {
            return None;
        }
        let machine = game.machines.as_slice().get(silo.0 as usize)?;
        if !can_run(&machine.energy, self.burning.as_slice()) {
            return None;
        }
        match &machine.kind {
            MachineKind::Crafter { speed, .. } => Some(crafter_of(machine, float_of(speed))),
            _ => None,
        }
    }

    /// The fastest machine that crafts a recipe, where a row can.
    pub fn crafter(
        &self,
        game: &Game,
        reached: &[bool],
        number: RecipeId,
        recipe: &Recipe,
    ) -> Option<Crafter>
        requires { IsSound game.now }
    {
        if let Some(silo) = recipe.launch {
            return self.silo(game, reached, silo);
        }
        match self.by_category.as_slice().get(recipe.category as usize) {
            Some(Some(best)) => Some(*best),
            _ => self.fixed_to(number),
        }
    }
}
