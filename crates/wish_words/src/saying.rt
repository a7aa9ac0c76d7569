//! How it is said that words name no wish, or that a wish can't be met.
ghost use Rattle.game_types.specs.Sound.{IsSound};

use crate::likeness::nearest_object;
use crate::objects::NameFault;
use fractions::Ratio;
use game_types::Game;
use plan_base::{GoodId, Kind, NoMemory, Text};
use plan_report::{object_word, printed_word};
use script_reader::Place;
use std::alloc::Global;
use wish_checks::{good_text, like_names, machine_text, recipe_text};
use wish_estimates::{all_variants, given_variants};
use wish_setups::{Reason, Unmade, WishFault};

// What is written to a text in memory, or that none could be had.
type Done = Result<(), NoMemory>;

static GOODS: [Kind; 4] = [Kind::Item, Kind::Fluid, Kind::Tech, Kind::Special];

static MACHINES: [Kind; 1] = [Kind::Machine];

static ITEMS: [Kind; 1] = [Kind::Item];

static RECIPES: [Kind; 1] = [Kind::Recipe];

// The kinds of what may stand at a place of a wish.
fn kinds_at(place: Place) -> &'static [Kind] {
    match place {
        Place::OneMachine => MACHINES.as_slice(),
        Place::OneItem => ITEMS.as_slice(),
        Place::OneRecipe => RECIPES.as_slice(),
        _ => GOODS.as_slice(),
    }
}

// What has to stand there, as words name it.
fn meant_at(place: Place) -> &'static str {
    match place {
        Place::OneMachine => "machine:NAME",
        Place::OneItem => "item:NAME",
        Place::OneRecipe => "recipe:NAME",
        _ => "item:NAME, fluid:NAME, tech:NAME or special:electricity",
    }
}

fn push(said: &mut String, words: &[&str]) -> Done {
    for word in words {
        said.push_str(word)?;
    }
    Ok(())
}

fn push_word(alloc: Global, word: &str, said: &mut String) -> Done {
    let word = printed_word(alloc, word)?;
    push(said, &[word.as_str()])
}

fn push_object(alloc: Global, kind: Kind, name: &str, said: &mut String) -> Done {
    let word = object_word(alloc, kind, name)?;
    push(said, &[word.as_str()])
}

// Names of a kind, each with a space before it.
fn push_names(alloc: Global, kind: Kind, names: &[Text], said: &mut String) -> Done {
    for name in names {
        push(said, &[" "])?;
        push_object(alloc, kind, name.as_str(), said)?;
    }
    Ok(())
}

// The names of a kind that have a text in them, where there are any.
fn push_like(alloc: Global, game: &Game, kind: Kind, text: &str, said: &mut String) -> Done
    requires { IsSound game.now }
{
    let names = like_names(alloc, game, kind, text)?;
    if names.is_empty() {
        return Ok(());
    }
    push(said, &["; like it are"])?;
    push_names(alloc, kind, names.as_slice(), said)
}

// The names of these kinds that have a text in them.
fn push_all_like(alloc: Global, game: &Game, kinds: &[Kind], text: &str, said: &mut String) -> Done
    requires { IsSound game.now }
{
    for kind in kinds {
        push_like(alloc, game, *kind, text, said)?;
    }
    Ok(())
}

// A word without its kind.
fn name_in(word: &str) -> &str {
    match word.split_once(':') {
        Some((_, name)) => name,
        None => word,
    }
}

// What may have been meant: the nearest name, else those that have the text in them.
fn push_meant(alloc: Global, game: &Game, name: &str, place: Place, said: &mut String) -> Done
    requires { IsSound game.now }
{
    let kinds = kinds_at(place);
    match nearest_object(alloc, game, kinds, name)? {
        Some(like) => {
            push(said, &["; did you mean "])?;
            push_object(alloc, like.kind, like.name.as_str(), said)?;
            push(said, &["?"])
        }
        None => push_all_like(alloc, game, kinds, name, said),
    }
}

fn say_unknown(alloc: Global, game: &Game, word: &str, place: Place, said: &mut String) -> Done
    requires { IsSound game.now }
{
    push_word(alloc, word, said)?;
    push(said, &[" names nothing that is ", meant_at(place)])?;
    push_meant(alloc, game, name_in(word), place, said)
}

// Goods, each with a space before it.
fn push_goods(alloc: Global, game: &Game, goods: &[GoodId], said: &mut String) -> Done
    requires { IsSound game.now }
{
    for good in goods {
        push(said, &[" "])?;
        push_good(alloc, game, *good, said)?;
    }
    Ok(())
}

fn say_several(
    alloc: Global,
    game: &Game,
    reached: &[bool],
    word: &str,
    base: GoodId,
    said: &mut String,
) -> Done
    requires { IsSound game.now }
{
    push_word(alloc, word, said)?;
    let given = given_variants(alloc, game, reached, base)?;
    if given.len() == 0 {
        push(said, &[" has several temperatures, so name one:"])?;
        let variants = all_variants(alloc, game, base)?;
        return push_goods(alloc, game, variants.as_slice(), said);
    }
    push(said, &[" is made at several temperatures, so name one:"])?;
    push_goods(alloc, game, given.as_slice(), said)
}

fn say(alloc: Global, word: &str, what: &str, said: &mut String) -> Done {
    push_word(alloc, word, said)?;
    push(said, &[what])
}

/// Says why words name no wish in a state that reaches these nodes.
///
/// # Errors
///
/// `NoMemory` where memory could not be had, as in the fault of this name.
pub fn say_name_fault(
    alloc: Global,
    game: &Game,
    reached: &[bool],
    fault: NameFault<'_>,
    said: &mut String,
) -> Result<(), NoMemory>
    requires { IsSound game.now }
{
    match fault {
        NameFault::Unknown(word, place) => say_unknown(alloc, game, word, place, said),
        NameFault::SeveralTemperatures(word, base) => {
            say_several(alloc, game, reached, word, base, said)
        }
        NameFault::NoModule(word) => say(alloc, word, " is no module", said),
        NameFault::NoBeacon(word) => say(alloc, word, " is no beacon", said),
        NameFault::Twice(word) => say(alloc, word, " is named twice", said),
        NameFault::NoRate(word) => say(alloc, word, " has no rate, and no belt tells one", said),
        NameFault::NoMemory => Err(NoMemory),
    }
}

fn push_good(alloc: Global, game: &Game, good: GoodId, said: &mut String) -> Done
    requires { IsSound game.now }
{
    let word = good_text(alloc, game, good)?;
    push(said, &[word.as_str()])
}

// Why nothing gives a good.
fn push_reason(alloc: Global, game: &Game, reason: Reason, said: &mut String) -> Done {
    match reason {
        Reason::Unreached => push(said, &["the state doesn't reach it"]),
        Reason::ByHand(recipe) => {
            let recipe = recipe_text(alloc, game, recipe)?;
            push(said, &["it is made by hand alone, as by ", recipe.as_str()])
        }
        Reason::ByHeat(machine) => {
            let machine = machine_text(alloc, game, machine)?;
            push(
                said,
                &[
                    "it takes heat, as ",
                    machine.as_str(),
                    " does, which no row makes",
                ],
            )
        }
        Reason::ByFluid(machine) => {
            let machine = machine_text(alloc, game, machine)?;
            push(
                said,
                &[
                    "it takes a machine that runs on a fluid, as ",
                    machine.as_str(),
                    " does, which can't be a row",
                ],
            )
        }
        Reason::Hidden(recipe) => {
            let recipe = recipe_text(alloc, game, recipe)?;
            push(
                said,
                &[
                    "the game hides what gives it, as ",
                    recipe.as_str(),
                    ", which --only takes",
                ],
            )
        }
        Reason::Excluded => push(said, &["--without and --only leave out what gives it"]),
        Reason::NoWay => push(said, &["nothing that can be a row gives it"]),
    }
}

fn say_unmade(alloc: Global, game: &Game, unmade: Unmade, said: &mut String) -> Done
    requires { IsSound game.now }
{
    push_good(alloc, game, unmade.wished, said)?;
    push(said, &[" can't be made"])?;
    if unmade.good != unmade.wished {
        push(said, &[": it takes "])?;
        push_good(alloc, game, unmade.good, said)?;
    }
    push(said, &[": "])?;
    push_reason(alloc, game, unmade.reason, said)?;
    push(said, &[" (--import GOOD=PRICE takes a good as it is)"])
}

// Options that import goods, each with a space before it.
fn push_imports(alloc: Global, game: &Game, goods: &[(GoodId, Ratio)], said: &mut String) -> Done
    requires { IsSound game.now }
{
    for pair in goods {
        push(said, &[" --import "])?;
        push_good(alloc, game, pair.0, said)?;
        let price = pair.1.print(alloc)?;
        push(said, &["=", price.as_str()])?;
    }
    Ok(())
}

fn say_no_plan(alloc: Global, game: &Game, goods: &[(GoodId, Ratio)], said: &mut String) -> Done
    requires { IsSound game.now }
{
    push(said, &["no table that was tried has a plan"])?;
    if goods.is_empty() {
        return Ok(());
    }
    push(
        said,
        &["; what the proofs of it speak of can be taken as it is:"],
    )?;
    push_imports(alloc, game, goods, said)
}

/// Says why there is no table for a wish.
///
/// # Errors
///
/// `NoMemory` where memory could not be had, as in the fault of this name.
pub fn say_wish_fault(
    alloc: Global,
    game: &Game,
    fault: &WishFault,
    said: &mut String,
) -> Result<(), NoMemory>
    requires { IsSound game.now }
{
    match fault {
        WishFault::Unmade(unmade) => say_unmade(alloc, game, *unmade, said),
        WishFault::NoPlan(goods) => say_no_plan(alloc, game, goods.as_slice(), said),
        WishFault::Unsolved => push(
            said,
            &[
                "each table that was tried forms a number that is too wide (V1); fewer --rows may help",
            ],
        ),
        WishFault::Full => push(said, &["the table has no room for more rows or goods"]),
        WishFault::NoMemory => Err(NoMemory),
    }
}
