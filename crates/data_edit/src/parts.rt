//! The parts of a book that an edit changes.
ghost use Rattle.std.specs.Prelude.{◌≡◌, IfOk};

use fractions::Ratio;
use game_types::{Part, Product};
use plan_base::{Items, NoMemory, NodeId, RecipeId, TechId};
use std::alloc::Global;

/// One part of a recipe with a value.
#[derive(Drop)]
pub enum RecipePart {
    Ingredients(Items<Part>),
    Products(Items<Product>),
    Time(Ratio),
    Enabled(bool),
}

/// What takes an edit back: the one part of the book that the edit changed, as it was before.
#[derive(Drop)]
pub enum Inverse {
    /// A part of a recipe.
    Recipe(RecipeId, RecipePart),
    /// The recipes that a technology makes known.
    Unlocks(TechId, Items<RecipeId>),
    /// Whether a node is barred.
    Barred(NodeId, bool),
    /// Whether a node is granted.
    Granted(NodeId, bool),
}

// An equal list of its own.
fn copied<T: Copy + Drop>(alloc: Global, items: &Items<T>) -> Result<Items<T>, NoMemory>
    ensures { IfOk result (λ copy. copy ≡ items.now) }
{
    let mut copy = Vec::new(alloc);
    for item in items.as_slice() {
        copy.push(*item)?;
    }
    Ok(Items::from_vec(copy))
}

impl RecipePart {
    fn copy(&self, alloc: Global) -> Result<RecipePart, NoMemory>
        ensures { IfOk result (λ copy. copy ≡ self.now) }
    {
        match self {
            RecipePart::Ingredients(list) => Ok(RecipePart::Ingredients(copied(alloc, list)?)),
            RecipePart::Products(list) => Ok(RecipePart::Products(copied(alloc, list)?)),
            RecipePart::Time(time) => Ok(RecipePart::Time(*time)),
            RecipePart::Enabled(on) => Ok(RecipePart::Enabled(*on)),
        }
    }
}

impl Inverse {
    /// An equal inverse of its own.
    ///
    /// # Errors
    ///
    /// `NoMemory` where memory could not be had.
    pub fn copy(&self, alloc: Global) -> Result<Inverse, NoMemory>
        ensures { IfOk result (λ copy. copy ≡ self.now) }
    {
        match self {
            Inverse::Recipe(recipe, part) => Ok(Inverse::Recipe(*recipe, part.copy(alloc)?)),
            Inverse::Unlocks(tech, list) => Ok(Inverse::Unlocks(*tech, copied(alloc, list)?)),
            Inverse::Barred(node, on) => Ok(Inverse::Barred(*node, *on)),
            Inverse::Granted(node, on) => Ok(Inverse::Granted(*node, *on)),
        }
    }
}
