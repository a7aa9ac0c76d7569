//! Recipes and technologies of a dump, by the fields of their prototypes, with names in place of ids.
#![tactic(auto)]

mod fault;
mod given;
mod goods;
mod recipes;
mod technologies;

pub use fault::{DumpCode, DumpFault};
pub use given::{RawProduct, launch_products, product, products};
pub use goods::{GoodKind, NamedGood, RawPack, RawPart, ingredient, ingredients, pack, packs};
pub use recipes::{RawRecipe, chosen, is_switched_off, raw_recipe, read_recipe};
pub use technologies::{RawTech, raw_tech, read_tech};
