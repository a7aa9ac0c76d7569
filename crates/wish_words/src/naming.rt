//! The wish that words ask for, by what they name in a game.
ghost use Rattle.std.specs.Prelude.{◌≡◌, ◌++◌, [], ◌∷◌, Some, None, IfOk, OnOk};
ghost use Rattle.std.specs.List.{AllZip};
ghost use Rattle.game_types.specs.Sound.{IsSound};
ghost use Rattle.script_reader.specs.declared.fields.Place.TheVariants.{OneItem};
ghost use Rattle.wish_words.specs.Named.{BothOrNone, IsBeaconOf, IsImportOf, IsPlaceOf, IsWantOf, IsWishOf, cheapest_of, rate_or};

use crate::asked::{AskedBeacon, AskedImport, AskedWish, Least, WishRequest};
use crate::objects::{
    NameFault, beacon, good, item, machines, module, modules, recipes, wished_good,
};
use fractions::Ratio;
use game_types::Game;
use plan_base::{GoodId, Items, NoMemory};
use std::alloc::Global;
use wish_setups::{Cheapest, Wish, WishBeacon};

// A good with its number behind others, where it isn't among them.
fn add<'a>(
    word: &'a str,
    pair: (GoodId, Ratio),
    pairs: &mut Vec<(GoodId, Ratio)>,
) -> Result<(), NameFault<'a>>
    ensures { OnOk result (pairs.new.items ≡ pairs.old.items ++ pair ∷ []) }
{
    if pairs.iter().any(|other| other.0.0 == pair.0.0) {
        return Err(NameFault::Twice(word));
    }
    pairs.push(pair)?;
    Ok(())
}

// The units a second that are wished for.
fn rate_of<'a>(asked: &AskedWish<'a>, belt: &Option<Ratio>) -> Result<Ratio, NameFault<'a>>
    ensures { IfOk result (λ rate. rate_or asked.now.rate belt.now ≡ Some rate) }
{
    if let Some(rate) = asked.rate {
        return Ok(rate);
    }
    match belt {
        Some(rate) => Ok(*rate),
        None => Err(NameFault::NoRate(asked.good)),
    }
}

// One good that is wished for.
fn want<'a>(
    alloc: Global,
    game: &Game,
    reached: &[bool],
    asked: &AskedWish<'a>,
    belt: &Option<Ratio>,
) -> Result<(GoodId, Ratio), NameFault<'a>>
    requires { IsSound game.now }
    ensures { IfOk result (IsWantOf game.now belt.now asked.now) }
{
    let good = wished_good(alloc, game, reached, asked.good)?;
    let rate = rate_of(asked, belt)?;
    Ok((good, rate))
}

// What is wished for.
fn wants<'a>(
    alloc: Global,
    game: &Game,
    reached: &[bool],
    asked: &[AskedWish<'a>],
    belt: &Option<Ratio>,
) -> Result<Vec<(GoodId, Ratio)>, NameFault<'a>>
    requires { IsSound game.now }
    ensures { IfOk result (λ wants. AllZip (IsWantOf game.now belt.now) asked.now wants.items) }
{
    let mut wants = Vec::new(alloc);
    for wish in asked {
        let want = want(alloc, game, reached, wish, belt)?;
        add(wish.good, want, &mut wants)?;
    }
    Ok(wants)
}

// What is wished for, or the good that is to get more rows, with a rate that says nothing.
fn all_wants<'a>(
    alloc: Global,
    game: &Game,
    reached: &[bool],
    asked: &WishRequest<'a>,
    belt: &Option<Ratio>,
) -> Result<Items<(GoodId, Ratio)>, NameFault<'a>>
    requires { IsSound game.now }
    ensures { IfOk result (λ wants. asked.now.more ≡ None → AllZip (IsWantOf game.now belt.now) asked.now.wishes.items wants) }
{
    let mut wants = wants(alloc, game, reached, asked.wishes.as_slice(), belt)?;
    if let Some(more) = asked.more {
        let good = wished_good(alloc, game, reached, more.good)?;
        add(more.good, (good, Ratio::one()), &mut wants)?;
    }
    Ok(Items::from_vec(wants))
}

// One good that is taken as it is, with its price.
fn import<'a>(
    alloc: Global,
    game: &Game,
    reached: &[bool],
    asked: &AskedImport<'a>,
) -> Result<(GoodId, Ratio), NameFault<'a>>
    requires { IsSound game.now }
    ensures { IfOk result (IsImportOf game.now asked.now) }
{
    Ok((good(alloc, game, reached, asked.good)?, asked.price))
}

fn imports<'a>(
    alloc: Global,
    game: &Game,
    reached: &[bool],
    asked: &[AskedImport<'a>],
) -> Result<Items<(GoodId, Ratio)>, NameFault<'a>>
    requires { IsSound game.now }
    ensures { IfOk result (λ imports. AllZip (IsImportOf game.now) asked.now imports) }
{
    let mut imports = Vec::new(alloc);
    for asked in asked {
        let import = import(alloc, game, reached, asked)?;
        add(asked.good, import, &mut imports)?;
    }
    Ok(Items::from_vec(imports))
}

fn fuel<'a>(
    alloc: Global,
    game: &Game,
    word: Option<&'a str>,
) -> Result<Option<GoodId>, NameFault<'a>>
    requires { IsSound game.now }
    ensures { IfOk result (BothOrNone (λ word item. IsPlaceOf game.now OneItem word.now item.0) word.entry) }
{
    match word {
        Some(word) => Ok(Some(item(alloc, game, word)?)),
        None => Ok(None),
    }
}

fn surrounding<'a>(
    alloc: Global,
    game: &Game,
    asked: Option<AskedBeacon<'a>>,
) -> Result<Option<WishBeacon>, NameFault<'a>>
    requires { IsSound game.now }
    ensures { IfOk result (BothOrNone (IsBeaconOf game.now) asked.entry) }
{
    let Some(asked) = asked else {
        return Ok(None);
    };
    let beacon = beacon(alloc, game, asked.machine)?;
    let module = module(alloc, game, asked.item)?;
    Ok(Some(WishBeacon {
        beacon,
        count: asked.count,
        share: asked.share,
        module,
    }))
}

fn cheapest(asked: Least) -> Cheapest
    ensures { result ≡ cheapest_of asked }
{
    match asked {
        Least::Cost => Cheapest::Cost,
        Least::Power => Cheapest::Power,
        Least::Pollution => Cheapest::Pollution,
        Least::Machines => Cheapest::Machines,
    }
}

// The same marks.
fn marks(alloc: Global, marked: &[bool]) -> Result<Items<bool>, NoMemory>
    ensures { IfOk result (λ marks. marks ≡ marked.now) }
{
    let mut marks = Vec::new(alloc);
    marks.extend_from_slice(marked)?;
    Ok(Items::from_vec(marks))
}

/// The wish that the words ask for in a state that reaches these nodes. A good without a rate is wished for at the rate of a belt.
/// Recipes are marked that the game hides.
///
/// # Errors
///
/// The first word that names nothing that is fit, or `NoMemory`.
pub fn wish_of<'a>(
    alloc: Global,
    game: &Game,
    reached: &[bool],
    asked: &WishRequest<'a>,
    belt: Option<Ratio>,
    hidden: &[bool],
) -> Result<Wish, NameFault<'a>>
    requires { IsSound game.now }
    ensures hidden { IfOk result (λ wish. wish.hidden ≡ hidden.now) }
    ensures asked { IfOk result (IsWishOf game.now belt asked.now) }
{
    let wants = all_wants(alloc, game, reached, asked, &belt)?;
    let by = machines(alloc, game, asked.by.as_slice())?;
    let modules = modules(alloc, game, asked.setup.modules.as_slice())?;
    let beacon = surrounding(alloc, game, asked.setup.beacon)?;
    let fuel = fuel(alloc, game, asked.setup.fuel)?;
    let imports = imports(alloc, game, reached, asked.imports.as_slice())?;
    let without = recipes(alloc, game, asked.choice.without.as_slice())?;
    let only = recipes(alloc, game, asked.choice.only.as_slice())?;
    let hidden = marks(alloc, hidden)?;
    Ok(Wish {
        wants,
        by,
        modules,
        beacon,
        fuel,
        imports,
        without,
        only,
        hidden,
        rows: asked.choice.rows,
        cheapest: cheapest(asked.choice.cheapest),
        dig: asked.dig,
        power: asked.power,
    })
}
