//! What stands at an id of a game.
ghost use Rattle.std.specs.Prelude.{◌≡◌, ◌<◌, length};
ghost use Rattle.game_types.specs.Lookups.{item_at, module_at, recipe_at, source_at, machine_at};
ghost use Rattle.game_types.specs.Sound.{IsSound, IsSoundMachine, IsSoundModule, IsModule};

use crate::{Game, Item, Machine, Module, Recipe, Source};
use plan_base::{EntityId, GoodId, RecipeId, SourceId};

impl Game {
    /// The item of an id.
    pub fn item(&self, good: GoodId) -> &Item
        requires { good.0 < length self.now.items }
        ensures { result.now ≡ item_at self.now good }
    {
        &self.items.as_slice()[good.0 as usize]
    }

    /// The recipe of an id.
    pub fn recipe(&self, recipe: RecipeId) -> &Recipe
        requires { recipe.0 < length self.now.recipes }
        ensures { result.now ≡ recipe_at self.now recipe }
    {
        &self.recipes.as_slice()[recipe.0 as usize]
    }

    /// The source of an id.
    pub fn source(&self, source: SourceId) -> &Source
        requires { source.0 < length self.now.sources }
        ensures { result.now ≡ source_at self.now source }
    {
        &self.sources.as_slice()[source.0 as usize]
    }

    /// The machine of an id.
    pub fn machine(&self, machine: EntityId) -> &Machine
        requires sound { IsSound self.now }
        requires within { machine.0 < length self.now.machines }
        ensures value { result.now ≡ machine_at self.now machine }
        ensures sound { IsSoundMachine self.now result.now }
    {
        &self.machines.as_slice()[machine.0 as usize]
    }

    /// The module that an item is.
    pub fn module(&self, good: GoodId) -> &Module
        requires sound { IsSound self.now }
        requires there { IsModule self.now good }
        ensures value { result.now ≡ module_at self.now good }
        ensures sound { IsSoundModule self.now result.now }
    {
        let item = self.item(good);
        item.module.as_ref().unwrap()
    }
}
