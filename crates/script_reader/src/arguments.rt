//! The words behind a command word.
ghost use Rattle.std.specs.Prelude.{◌≡◌, ◌≢◌, ◌∷◌, [], length, MatchOption};
ghost use Rattle.script_reader.specs.Reading.{Answers};
ghost use Rattle.script_reader.specs.Arguments.{enabled_words, power_words, good_of_recipe_words, kind_words, label_words, no_words, node_words, price_of_good_words, price_words, solve_words, switch_words, text_words, time_words, unlock_words, want_words};

use crate::ScriptFault;
use crate::fields::Place;
use crate::word_values::{
    amount_at, budget_at, kind_at, object_word, price_at, ratio_at, switch_at,
};
use fractions::Ratio;
use plan_base::{Kind, Text};
use plan_lines::{Object, copy_text};
use std::alloc::Global;

fn one(words: &[Text]) -> Option<&Text>
    ensures { MatchOption result (length words.now ≢ 1) (λ a. words.now ≡ a.now ∷ []) }
{
    match words {
        [a] => Some(a),
        _ => None,
    }
}

fn two(words: &[Text]) -> Option<(&Text, &Text)>
    ensures { MatchOption result (length words.now ≢ 2) (λ p. words.now ≡ p.0.now ∷ p.1.now ∷ []) }
{
    match words {
        [a, b] => Some((a, b)),
        _ => None,
    }
}

fn three(words: &[Text]) -> Option<(&Text, &Text, &Text)>
    ensures { MatchOption result (length words.now ≢ 3) (λ p. words.now ≡ p.0.now ∷ p.1.now ∷ p.2.now ∷ []) }
{
    match words {
        [a, b, c] => Some((a, b, c)),
        _ => None,
    }
}

// No words.
#[tactic(auto, unfolding(crate::specs::Reading::Answers, crate::specs::Reading::the_one, crate::specs::Reading::gives, crate::specs::Reading::refuses, crate::specs::Reading::no_word))]
pub fn nothing_at(words: &[Text]) -> Result<(), ScriptFault>
    ensures { Answers (no_words words.now) result }
{
    if words.is_empty() {
        Ok(())
    } else {
        Err(ScriptFault::WrongWords)
    }
}

#[tactic(auto, using(crate::proofs::Readings::readings))]
pub fn node(alloc: Global, words: &[Text]) -> Result<Object, ScriptFault>
    ensures { Answers (node_words words.now) result }
{
    let Some(word) = one(words) else {
        return Err(ScriptFault::WrongWords);
    };
    object_word(alloc, word, Place::Node)
}

#[tactic(auto, using(crate::proofs::Readings::readings))]
pub fn kind(words: &[Text]) -> Result<Kind, ScriptFault>
    ensures { Answers (kind_words words.now) result }
{
    let Some(word) = one(words) else {
        return Err(ScriptFault::WrongWords);
    };
    kind_at(word)
}

#[tactic(auto, using(crate::proofs::Readings::readings))]
pub fn text(alloc: Global, words: &[Text]) -> Result<Text, ScriptFault>
    ensures { Answers (text_words words.now) result }
{
    let Some(word) = one(words) else {
        return Err(ScriptFault::WrongWords);
    };
    match copy_text(alloc, word) {
        Ok(text) => Ok(text),
        Err(_) => Err(ScriptFault::NoMemory),
    }
}

#[tactic(auto, using(crate::proofs::Readings::readings))]
pub fn label(alloc: Global, words: &[Text]) -> Result<(Text, Text), ScriptFault>
    ensures { Answers (label_words words.now) result }
{
    let Some((table, label)) = two(words) else {
        return Err(ScriptFault::WrongWords);
    };
    let Ok(table) = copy_text(alloc, table) else {
        return Err(ScriptFault::NoMemory);
    };
    let Ok(label) = copy_text(alloc, label) else {
        return Err(ScriptFault::NoMemory);
    };
    Ok((table, label))
}

#[tactic(auto, using(crate::proofs::Readings::readings))]
pub fn switch(words: &[Text]) -> Result<bool, ScriptFault>
    ensures { Answers (switch_words words.now) result }
{
    let Some(word) = one(words) else {
        return Err(ScriptFault::WrongWords);
    };
    switch_at(word)
}

#[tactic(auto, using(crate::proofs::Readings::readings))]
pub fn solve(alloc: Global, words: &[Text]) -> Result<(Text, u32), ScriptFault>
    ensures { Answers (solve_words words.now) result }
{
    if let Some(table) = one(words) {
        let Ok(table) = copy_text(alloc, table) else {
            return Err(ScriptFault::NoMemory);
        };
        return Ok((table, 20_000));
    }
    let Some((table, budget)) = two(words) else {
        return Err(ScriptFault::WrongWords);
    };
    let budget = budget_at(budget)?;
    let Ok(table) = copy_text(alloc, table) else {
        return Err(ScriptFault::NoMemory);
    };
    Ok((table, budget))
}

#[tactic(auto, using(crate::proofs::Readings::readings))]
pub fn good_of_recipe(
    alloc: Global,
    words: &[Text],
) -> Result<(Object, Object, Option<Ratio>), ScriptFault>
    ensures { Answers (good_of_recipe_words words.now) result }
{
    let Some((recipe, good, amount)) = three(words) else {
        return Err(ScriptFault::WrongWords);
    };
    let recipe = object_word(alloc, recipe, Place::OneRecipe)?;
    let good = object_word(alloc, good, Place::Good)?;
    let amount = amount_at(amount)?;
    Ok((recipe, good, amount))
}

#[tactic(auto, using(crate::proofs::Readings::readings))]
pub fn unlock(alloc: Global, words: &[Text]) -> Result<(Object, Object, bool), ScriptFault>
    ensures { Answers (unlock_words words.now) result }
{
    let Some((tech, recipe, on)) = three(words) else {
        return Err(ScriptFault::WrongWords);
    };
    let on = switch_at(on)?;
    let tech = object_word(alloc, tech, Place::OneTech)?;
    let recipe = object_word(alloc, recipe, Place::OneRecipe)?;
    Ok((tech, recipe, on))
}

#[tactic(auto, using(crate::proofs::Readings::readings))]
pub fn time(alloc: Global, words: &[Text]) -> Result<(Object, Ratio), ScriptFault>
    ensures { Answers (time_words words.now) result }
{
    let Some((recipe, seconds)) = two(words) else {
        return Err(ScriptFault::WrongWords);
    };
    let recipe = object_word(alloc, recipe, Place::OneRecipe)?;
    let seconds = ratio_at(seconds)?;
    Ok((recipe, seconds))
}

#[tactic(auto, using(crate::proofs::Readings::readings))]
pub fn enabled(alloc: Global, words: &[Text]) -> Result<(Object, bool), ScriptFault>
    ensures { Answers (enabled_words words.now) result }
{
    let Some((recipe, on)) = two(words) else {
        return Err(ScriptFault::WrongWords);
    };
    let on = switch_at(on)?;
    let recipe = object_word(alloc, recipe, Place::OneRecipe)?;
    Ok((recipe, on))
}

#[tactic(auto, using(crate::proofs::Readings::readings))]
pub fn price(alloc: Global, words: &[Text]) -> Result<(Text, Text, Ratio), ScriptFault>
    ensures { Answers (price_words words.now) result }
{
    let Some((table, label, price)) = three(words) else {
        return Err(ScriptFault::WrongWords);
    };
    let price = ratio_at(price)?;
    let Ok(table) = copy_text(alloc, table) else {
        return Err(ScriptFault::NoMemory);
    };
    let Ok(label) = copy_text(alloc, label) else {
        return Err(ScriptFault::NoMemory);
    };
    Ok((table, label, price))
}

#[tactic(auto, using(crate::proofs::Readings::readings))]
pub fn power(alloc: Global, words: &[Text]) -> Result<(Text, bool), ScriptFault>
    ensures { Answers (power_words words.now) result }
{
    let Some((table, on)) = two(words) else {
        return Err(ScriptFault::WrongWords);
    };
    let on = switch_at(on)?;
    let Ok(table) = copy_text(alloc, table) else {
        return Err(ScriptFault::NoMemory);
    };
    Ok((table, on))
}

#[tactic(auto, using(crate::proofs::Readings::readings))]
pub fn want(alloc: Global, words: &[Text]) -> Result<(Text, Object, Ratio), ScriptFault>
    ensures { Answers (want_words words.now) result }
{
    let Some((table, good, amount)) = three(words) else {
        return Err(ScriptFault::WrongWords);
    };
    let good = object_word(alloc, good, Place::TableGood)?;
    let amount = ratio_at(amount)?;
    let Ok(table) = copy_text(alloc, table) else {
        return Err(ScriptFault::NoMemory);
    };
    Ok((table, good, amount))
}

#[tactic(auto, using(crate::proofs::Readings::readings))]
pub fn price_of_good(
    alloc: Global,
    words: &[Text],
) -> Result<(Text, Object, Option<Ratio>), ScriptFault>
    ensures { Answers (price_of_good_words words.now) result }
{
    let Some((table, good, price)) = three(words) else {
        return Err(ScriptFault::WrongWords);
    };
    let good = object_word(alloc, good, Place::TableGood)?;
    let price = price_at(price)?;
    let Ok(table) = copy_text(alloc, table) else {
        return Err(ScriptFault::NoMemory);
    };
    Ok((table, good, price))
}
