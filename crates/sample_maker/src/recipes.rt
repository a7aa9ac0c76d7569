// The dump of a sample.
ghost use Rattle.std.specs.Prelude.{◌≡◌, ◌+◌, ◌*◌, ◌/◌, ◌%◌, ◌<◌, ◌≤◌, ◌++◌, codes, IfOk, OnOk, string_bytes};
ghost use Rattle.sample_maker.specs.Draws.{after, joined, next};
ghost use Rattle.sample_maker.specs.Dump.{comma, dump_text, head, ingredients, item, maker, recipes_at, recipes_from, unmaker};

use crate::draws::Draws;
use std::alloc::{AllocError, Global};

// The character, the machine and the item that builds it.
fn head() -> &'static str
    ensures { result.now ≡ head }
{
    r#"{"character":{"character":{"crafting_categories":["crafting"]}},"assembling-machine":{"m0":{"crafting_speed":1,"crafting_categories":["crafting"],"energy_usage":"1kW","energy_source":{"type":"void"}}},"item":{"i0":{"place_result":"m0"}"#
}

#[tactic(auto, unfolding(crate::specs::Dump::item))]
fn push_item(text: &mut String, k: u32) -> Result<(), AllocError>
    ensures { OnOk result (string_bytes text.new ≡ string_bytes text.old ++ item k) }
{
    write!(text, r#","i{k}":{{}}"#)
}

#[tactic(auto, using(crate::proofs::DrawsLemmas::grown, crate::proofs::DrawsLemmas::grown_none))]
fn push_items(text: &mut String, size: u32) -> Result<(), AllocError>
    requires { size ≤ 20000 }
    ensures { OnOk result (string_bytes text.new ≡ string_bytes text.old ++ joined item size) }
{
    for k in 1..size + 1 {
        push_item(text, k)?;
    }
    Ok(())
}

#[tactic(auto, unfolding(crate::specs::Dump::comma))]
fn comma(k: u32) -> &'static str
    ensures { result.now ≡ comma k }
{
    if k == 1 { "" } else { "," }
}

#[tactic(auto, unfolding(crate::specs::Dump::ingredients))]
fn ingredients(alloc: Global, first: u32, second: u32) -> Result<String, AllocError>
    ensures { IfOk result (λ list. string_bytes list ≡ ingredients first second) }
{
    if first == second {
        format!(in alloc; r#"[["i{first}",1]]"#)
    } else {
        format!(in alloc; r#"[["i{first}",1],["i{second}",1]]"#)
    }
}

// The recipe for an item.
#[tactic(auto, unfolding(crate::specs::Dump::maker))]
fn push_maker(text: &mut String, k: u32, list: &str) -> Result<(), AllocError>
    ensures { OnOk result (string_bytes text.new ≡ string_bytes text.old ++ maker k list.now) }
{
    write!(text, r#""r{k}":{{"ingredients":{list},"result":"i{k}"}}"#)
}

// The recipe that takes an item.
#[tactic(auto, unfolding(crate::specs::Dump::unmaker))]
fn push_unmaker(text: &mut String, k: u32, made: u32) -> Result<(), AllocError>
    ensures { OnOk result (string_bytes text.new ≡ string_bytes text.old ++ unmaker k made) }
{
    write!(
        text,
        r#","b{k}":{{"ingredients":[["i{k}",1]],"result":"i{made}"}}"#
    )
}

// Draws what the recipes of an item take and give, and writes them.
#[tactic(auto, unfolding(crate::specs::Draws::after))]
fn push_pair(alloc: Global, text: &mut String, draws: &mut Draws, k: u32) -> Result<(), AllocError>
    requires { 0 < k }
    ensures text { OnOk result (string_bytes text.new ≡ string_bytes text.old ++ recipes_from draws.old.state k) }
    ensures draws { OnOk result (draws.new.state ≡ after 3 draws.old.state) }
{
    let first = draws.below(k);
    let second = draws.below(k);
    let third = draws.below(k);
    let list = ingredients(alloc, first, second)?;
    text.push_str(comma(k))?;
    push_maker(text, k, list.as_str())?;
    push_unmaker(text, k, third)
}

#[tactic(auto, using(crate::proofs::DrawsLemmas::grown, crate::proofs::DrawsLemmas::grown_none, crate::proofs::DrawsLemmas::three_more, crate::proofs::DrawsLemmas::three_none))]
fn push_pairs(
    alloc: Global,
    text: &mut String,
    draws: &mut Draws,
    size: u32,
) -> Result<(), AllocError>
    requires { size ≤ 20000 }
    ensures text { OnOk result (string_bytes text.new ≡ string_bytes text.old ++ joined (recipes_at draws.old.state) size) }
    ensures draws { OnOk result (draws.new.state ≡ after (3 * size) draws.old.state) }
{
    for k in 1..size + 1 {
        push_pair(alloc, text, draws, k)?;
    }
    Ok(())
}

/// The dump of a size, which takes three draws for each of its items.
#[tactic(auto, unfolding(crate::specs::Dump::dump_text))]
pub fn dump_text(alloc: Global, draws: &mut Draws, size: u32) -> Result<String, AllocError>
    requires { size ≤ 20000 }
    ensures text { IfOk result (λ text. string_bytes text ≡ dump_text draws.old.state size) }
    ensures draws { OnOk result (draws.new.state ≡ after (3 * size) draws.old.state) }
{
    let mut text = String::from_str(alloc, head())?;
    push_items(&mut text, size)?;
    text.push_str(r#"},"recipe":{"#)?;
    push_pairs(alloc, &mut text, draws, size)?;
    text.push_str("}}")?;
    Ok(text)
}
