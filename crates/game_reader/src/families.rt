//! The names of a dump, and what they stand for.
ghost use Rattle.std.specs.Prelude.{◌≡◌, ◌<◌, ◌+◌, ℕ, IfOk, IfSome, length, take};
ghost use Rattle.std.specs.List.{filter_map};
ghost use Rattle.name_table.specs.Names.{place_of};
ghost use Rattle.prototype_fields.specs.Values.{Gives, each};
ghost use Rattle.game_reader.specs.Links.{fluid_named, if_given, item_named, known_machine, known_recipes, or_unknown, recipe_named, tech_named, unknown_name};

use name_table::{NAME_LIMIT, Names};
use plan_base::{EntityId, GoodId, Items, NoMemory, RecipeId, TechId, Text};
use prototype_fields::{FieldCode, FieldFault, Key, Within};
use std::alloc::Global;

/// The names of the prototypes of a dump, by what they name.
#[derive(Drop)]
pub struct Families {
    pub items: Names,
    pub fluids: Names,
    pub recipes: Names,
    pub sources: Names,
    pub machines: Names,
    pub techs: Names,
}

// The fault of a field that names what isn't there.
fn unknown_name(within: Within, key: Key) -> FieldFault
    ensures { result ≡ unknown_name within key }
{
    FieldFault {
        code: FieldCode::UnknownName,
        within,
        key: Some(key),
    }
}

// The place of a name.
fn place_of(names: &Names, name: &str) -> Option<u32>
    ensures place { result ≡ place_of names.now name.now }
    ensures few { IfSome result (λ place. place < NAME_LIMIT) }
{
    prove!(names.len() <= NAME_LIMIT as u32);
    names.find(name)
}

impl Families {
    /// The item of a name that a field has.
    #[tactic(auto, unfolding(crate::specs::Links::item_named))]
    pub fn item(&self, within: Within, key: Key, name: &str) -> Result<GoodId, FieldFault>
        ensures { result ≡ item_named self.now within key name.now }
    {
        match place_of(&self.items, name) {
            Some(place) => Ok(GoodId(place)),
            None => Err(unknown_name(within, key)),
        }
    }

    /// The fluid of a name that a field has.
    #[tactic(auto, unfolding(crate::specs::Links::fluid_named))]
    pub fn fluid(&self, within: Within, key: Key, name: &str) -> Result<GoodId, FieldFault>
        ensures { result ≡ fluid_named self.now within key name.now }
    {
        match place_of(&self.fluids, name) {
            Some(place) => Ok(GoodId(self.items.len() + place)),
            None => Err(unknown_name(within, key)),
        }
    }

    /// The recipe of a name that a field has.
    #[tactic(auto, unfolding(crate::specs::Links::recipe_named))]
    pub fn recipe(&self, within: Within, key: Key, name: &str) -> Result<RecipeId, FieldFault>
        ensures { result ≡ recipe_named self.now within key name.now }
    {
        match place_of(&self.recipes, name) {
            Some(place) => Ok(RecipeId(place)),
            None => Err(unknown_name(within, key)),
        }
    }

    /// The technology of a name that a field has.
    #[tactic(auto, unfolding(crate::specs::Links::tech_named))]
    pub fn tech(&self, within: Within, key: Key, name: &str) -> Result<TechId, FieldFault>
        ensures { result ≡ tech_named self.now within key name.now }
    {
        match place_of(&self.techs, name) {
            Some(place) => Ok(TechId(place)),
            None => Err(unknown_name(within, key)),
        }
    }

    /// The item of a name, where a field has one.
    pub fn optional_item(
        &self,
        within: Within,
        key: Key,
        name: &Option<Text>,
    ) -> Result<Option<GoodId>, FieldFault>
        ensures { result ≡ if_given (item_named self.now within key) name.now }
    {
        match name {
            Some(name) => Ok(Some(self.item(within, key, name.as_str())?)),
            None => Ok(None),
        }
    }

    /// The fluid of a name, where a field has one.
    pub fn optional_fluid(
        &self,
        within: Within,
        key: Key,
        name: &Option<Text>,
    ) -> Result<Option<GoodId>, FieldFault>
        ensures { result ≡ if_given (fluid_named self.now within key) name.now }
    {
        match name {
            Some(name) => Ok(Some(self.fluid(within, key, name.as_str())?)),
            None => Ok(None),
        }
    }

    /// The recipe of a name, where a field has one.
    pub fn optional_recipe(
        &self,
        within: Within,
        key: Key,
        name: &Option<Text>,
    ) -> Result<Option<RecipeId>, FieldFault>
        ensures { result ≡ if_given (recipe_named self.now within key) name.now }
    {
        match name {
            Some(name) => Ok(Some(self.recipe(within, key, name.as_str())?)),
            None => Ok(None),
        }
    }

    /// The items of the names in a list.
    #[tactic(auto, using(crate::proofs::Loops::each_from_nothing))]
    pub fn each_item(
        &self,
        alloc: Global,
        within: Within,
        key: Key,
        names: &Items<Text>,
    ) -> Result<Items<GoodId>, FieldFault>
        ensures { Gives (each (item_named self.now within key) names.now) result }
    {
        let mut items = Vec::new(alloc);
        for name in names.as_slice() {
            match self.item(within, key, name.as_str()) {
                Ok(item) => items.push(item)?,
                Err(fault) => return Err(fault),
            }
        }
        Ok(Items::from_vec(items))
    }

    /// The recipes of the names in a list.
    #[tactic(auto, using(crate::proofs::Loops::each_from_nothing))]
    pub fn each_recipe(
        &self,
        alloc: Global,
        within: Within,
        key: Key,
        names: &Items<Text>,
    ) -> Result<Items<RecipeId>, FieldFault>
        ensures { Gives (each (recipe_named self.now within key) names.now) result }
    {
        let mut recipes = Vec::new(alloc);
        for name in names.as_slice() {
            match self.recipe(within, key, name.as_str()) {
                Ok(recipe) => recipes.push(recipe)?,
                Err(fault) => return Err(fault),
            }
        }
        Ok(Items::from_vec(recipes))
    }

    /// The technologies of the names in a list.
    #[tactic(auto, using(crate::proofs::Loops::each_from_nothing))]
    pub fn each_tech(
        &self,
        alloc: Global,
        within: Within,
        key: Key,
        names: &Items<Text>,
    ) -> Result<Items<TechId>, FieldFault>
        ensures { Gives (each (tech_named self.now within key) names.now) result }
    {
        let mut techs = Vec::new(alloc);
        for name in names.as_slice() {
            match self.tech(within, key, name.as_str()) {
                Ok(tech) => techs.push(tech)?,
                Err(fault) => return Err(fault),
            }
        }
        Ok(Items::from_vec(techs))
    }

    /// The machine of a name, where one is given and stands for a machine.
    #[tactic(auto, unfolding(crate::specs::Links::known_machine))]
    pub fn known_machine(&self, name: &Option<Text>) -> Option<EntityId>
        ensures { result ≡ known_machine self.now name.now }
    {
        let Some(name) = name else {
            return None;
        };
        match place_of(&self.machines, name.as_str()) {
            Some(place) => Some(EntityId(place)),
            None => None,
        }
    }

    /// The recipes of those names that stand for one.
    #[tactic(auto, unfolding(crate::specs::Links::known_recipes))]
    pub fn known_recipes(
        &self,
        alloc: Global,
        names: &Items<Text>,
    ) -> Result<Items<RecipeId>, NoMemory>
        ensures { IfOk result (λ recipes. recipes ≡ known_recipes self.now names.now) }
    {
        let mut recipes = Vec::new(alloc);
        for name in names.as_slice() {
            if let Some(place) = place_of(&self.recipes, name.as_str()) {
                recipes.push(RecipeId(place))?;
            }
        }
        Ok(Items::from_vec(recipes))
    }
}
