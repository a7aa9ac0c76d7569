//! What a game hides.
use crate::fields::ShownFields;
use game_types::Game;
use plan_base::NoMemory;
use std::alloc::Global;

fn is_hidden(shown: &ShownFields, recipe: &str) -> bool {
    match shown.recipes.find(recipe) {
        Some(shown) => shown.hidden,
        None => false,
    }
}

/// Marks for each recipe of a game whether its dump hides it, by what is shown of its things.
///
/// # Errors
///
/// `NoMemory` where memory could not be had.
pub fn hidden_recipes(
    alloc: Global,
    game: &Game,
    shown: &ShownFields,
) -> Result<Vec<bool>, NoMemory> {
    let names = &game.recipe_names;
    let mut hidden = Vec::new(alloc);
    for number in 0..names.len() {
        hidden.push(is_hidden(shown, names.name_of(number)))?;
    }
    Ok(hidden)
}
