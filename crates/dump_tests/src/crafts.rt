//! Recipes and technologies beside what a slow reader in another language reads of the same texts.
use crate::faults::dump_code;
use crate::trees::{first_prototype, wanted};
use craft_reader::{
    DumpFault, GoodKind, NamedGood, RawPack, RawPart, RawProduct, RawRecipe, RawTech, read_recipe,
    read_tech,
};
use fractions::Ratio;
use json_text::{JsonFault, SpanTree, Wanted, read_spans};
use name_table::Names;
use plan_base::{NoMemory, Text};
use std::alloc::Global;
use std::test::Fail;

const FIELDS: &str =
    "category ingredients results result result_count energy_required enabled emissions_multiplier \
    normal expensive prerequisites unit time effects type recipe name amount temperature minimum_temperature \
    maximum_temperature amount_min amount_max probability catalyst_amount count";

// A section, a text whose one prototype is `p`, and what that is read as.
const ROWS: &str =
    r#"recipe|{"recipe":{"p":{"ingredients":[["a",1]],"result":"x"}}}|0 1/2 true 1 ; item a ingredients name 1 - - > ; item x  result 1 1 1 0 -
recipe|{"recipe":{"p":{"category":"smelting","ingredients":[["a"],["b",null],{"name":"c","amount":2.5}],"result":"x","result_count":3,"energy_required":3.2,"enabled":"false","emissions_multiplier":2}}}|0 16/5 false 2 ; item a ingredients name 1 - - ; item b ingredients name 1 - - ; item c ingredients name 5/2 - - > ; item x  result 3 3 1 0 -
recipe|{"recipe":{"p":{"ingredients":[{"type":"fluid","name":"a","amount":3,"temperature":-5,"minimum_temperature":[]},{"type":"fluid","name":"b","amount":1,"minimum_temperature":1,"maximum_temperature":2.5},{"name":"c","amount":1,"temperature":[]}],"results":[]}}}|0 1/2 true 1 ; fluid a ingredients name 3 -5 -5 ; fluid b ingredients name 1 1 5/2 ; item c ingredients name 1 - - >
recipe|{"recipe":{"p":{"ingredients":{},"results":[["x",2],{"name":"y","amount_min":3,"amount_max":1,"probability":2,"catalyst_amount":1},{"type":"fluid","name":"z","amount":4,"temperature":100,"probability":0.25}],"result":5}}}|0 1/2 true 1 > ; item x results name 2 2 1 0 - ; item y results name 3 3 1 1 - ; fluid z results name 4 4 1/4 0 100
recipe|{"recipe":{"p":{"ingredients":[],"results":[{"name":"y","amount_min":1,"amount_max":3}]}}}|0 1/2 true 1 > ; item y results name 1 3 1 0 -
recipe|{"recipe":{"p":{"normal":{"ingredients":[],"result":"n"},"expensive":{"ingredients":[],"result":"e"},"category":"c","ingredients":5}}}|0 1/2 true 1 > ; item n  result 1 1 1 0 -
recipe|{"recipe":{"p":{"normal":false,"expensive":{"ingredients":[],"result":"e"}}}}|0 1/2 false 1 > ; item e  result 1 1 1 0 -
recipe|{"recipe":{"p":{"normal":false,"ingredients":[],"result":"x"}}}|0 1/2 true 1 > ; item x  result 1 1 1 0 -
recipe|{"recipe":{"p":{"normal":[],"ingredients":[],"result":"x"}}}|G1 recipe p ingredients
recipe|{"recipe":{"p":{"normal":5,"expensive":"false","ingredients":[],"result":"x"}}}|0 1/2 true 1 > ; item x  result 1 1 1 0 -
recipe|{"recipe":{"p":{"category":"","ingredients":[],"result":"x"}}}|0 1/2 true 1 > ; item x  result 1 1 1 0 -
recipe|{"recipe":{"p":{"category":1,"ingredients":[]}}}|G2 recipe p category
recipe|{"recipe":{"p":{"ingredients":null,"result":1}}}|G1 recipe p ingredients
recipe|{"recipe":{"p":{"ingredients":[],"result":""}}}|G1 recipe p results
recipe|{"recipe":{"p":{"ingredients":[],"results":null,"result":"x","result_count":-1}}}|G7 recipe p result_count
recipe|{"recipe":{"p":{"ingredients":[[]],"result":"x"}}}|G1 recipe p ingredients.name
recipe|{"recipe":{"p":{"ingredients":[["a",1,2]],"result":"x"}}}|G2 recipe p ingredients
recipe|{"recipe":{"p":{"ingredients":[[null,1]],"result":"x"}}}|G1 recipe p ingredients.name
recipe|{"recipe":{"p":{"ingredients":[null],"result":"x"}}}|G2 recipe p ingredients
recipe|{"recipe":{"p":{"ingredients":[{"name":"a"}],"result":"x"}}}|G1 recipe p ingredients.amount
recipe|{"recipe":{"p":{"ingredients":[{"type":"","name":"a","amount":1}],"result":"x"}}}|G2 recipe p ingredients.type
recipe|{"recipe":{"p":{"ingredients":[{"type":"gas","name":"","amount":-1}],"result":"x"}}}|G2 recipe p ingredients.type
recipe|{"recipe":{"p":{"ingredients":[["a",-1]],"result":"x"}}}|G7 recipe p ingredients.amount
recipe|{"recipe":{"p":{"ingredients":[["a",1e18]],"result":"x"}}}|G4 recipe p ingredients.amount
recipe|{"recipe":{"p":{"ingredients":[],"results":[{"name":"x","amount_min":1}]}}}|G1 recipe p results.amount_max
recipe|{"recipe":{"p":{"ingredients":[],"result":"x","energy_required":0}}}|G7 recipe p energy_required
recipe|{"recipe":{"p":{"ingredients":[],"result":"x","enabled":0,"energy_required":1e-20}}}|G7 recipe p energy_required
recipe|{"recipe":{"p":5}}|G2 recipe p 
recipe|{"recipe":{"p":[]}}|G1 recipe p ingredients
technology|{"technology":{"p":{"unit":{"ingredients":[["a",1]],"time":30}}}}|true - 30 takes a 1
technology|{"technology":{"p":{"enabled":false,"prerequisites":["a","","b"],"unit":{"ingredients":[["p",2],{"name":"q","amount":1}],"time":5,"count":100},"effects":[{"type":"unlock-recipe","recipe":"r"},{"type":"other","recipe":5},{},{"type":"unlock-recipe","recipe":"s"}]}}}|false 100 5 needs a needs b unlocks r unlocks s takes p 2 takes q 1
technology|{"technology":{"p":{"normal":false,"expensive":{"unit":{"ingredients":[],"time":0}},"unit":5}}}|false - 0
technology|{"technology":{"p":{"enabled":1,"prerequisites":1}}}|G2 technology p enabled
technology|{"technology":{"p":{"prerequisites":[null],"unit":{}}}}|G2 technology p prerequisites
technology|{"technology":{"p":{"unit":{"ingredients":[{"type":"fluid","name":"a","amount":1}],"time":1}}}}|G2 technology p unit.ingredients.type
technology|{"technology":{"p":{"unit":{"ingredients":[],"count":-1}}}}|G7 technology p unit.count
technology|{"technology":{"p":{"unit":{"ingredients":[]}}}}|G1 technology p unit.time
technology|{"technology":{"p":{"unit":[]}}}|G1 technology p unit.ingredients
technology|{"technology":{"p":{}}}|G1 technology p unit
technology|{"technology":{"p":{"unit":{"ingredients":[],"time":1},"effects":[1]}}}|G2 technology p effects
technology|{"technology":{"p":{"unit":{"ingredients":[],"time":1},"effects":[{"type":1}]}}}|G2 technology p effects.type
technology|{"technology":{"p":{"unit":{"ingredients":[],"time":1},"effects":[{"type":"unlock-recipe"}]}}}|G1 technology p effects.recipe"#;

// Hidden from the proofs, which need not know the texts.
fn kept_fields() -> &'static str {
    FIELDS
}

fn rows() -> &'static str {
    ROWS
}

fn push(line: &mut String, word: &str) -> Result<(), NoMemory> {
    if !line.is_empty() {
        line.push_str(" ")?;
    }
    Ok(line.push_str(word)?)
}

fn push_flag(line: &mut String, flag: bool) -> Result<(), NoMemory> {
    push(line, if flag { "true" } else { "false" })
}

fn push_number(alloc: Global, line: &mut String, number: &Ratio) -> Result<(), NoMemory> {
    let text = number.print(alloc)?;
    push(line, text.as_str())
}

fn push_optional(alloc: Global, line: &mut String, number: &Option<Ratio>) -> Result<(), NoMemory> {
    match number {
        Some(number) => push_number(alloc, line, number),
        None => push(line, "-"),
    }
}

fn kind_word(kind: GoodKind) -> &'static str {
    match kind {
        GoodKind::Item => "item",
        GoodKind::Fluid => "fluid",
    }
}

fn push_good(line: &mut String, good: &NamedGood) -> Result<(), NoMemory> {
    push(line, ";")?;
    push(line, kind_word(good.kind))?;
    push(line, good.name.as_str())?;
    push(line, good.within.text())?;
    push(line, good.key.text())
}

fn push_part(alloc: Global, line: &mut String, part: &RawPart) -> Result<(), NoMemory> {
    push_good(line, &part.good)?;
    push_number(alloc, line, &part.amount)?;
    push_optional(alloc, line, &part.low)?;
    push_optional(alloc, line, &part.high)
}

fn push_product(alloc: Global, line: &mut String, product: &RawProduct) -> Result<(), NoMemory> {
    push_good(line, &product.good)?;
    push_number(alloc, line, &product.low)?;
    push_number(alloc, line, &product.high)?;
    push_number(alloc, line, &product.probability)?;
    push_number(alloc, line, &product.catalyst)?;
    push_optional(alloc, line, &product.temperature)
}

fn push_parts(alloc: Global, line: &mut String, parts: &[RawPart]) -> Result<(), NoMemory> {
    for part in parts {
        push_part(alloc, line, part)?;
    }
    Ok(())
}

fn push_products(
    alloc: Global,
    line: &mut String,
    products: &[RawProduct],
) -> Result<(), NoMemory> {
    for product in products {
        push_product(alloc, line, product)?;
    }
    Ok(())
}

fn push_recipe(alloc: Global, line: &mut String, recipe: &RawRecipe) -> Result<(), NoMemory> {
    push_number(alloc, line, &Ratio::whole(recipe.category as i64))?;
    push_number(alloc, line, &recipe.time)?;
    push_flag(line, recipe.enabled)?;
    push_number(alloc, line, &recipe.emissions)?;
    push_parts(alloc, line, recipe.ingredients.as_slice())?;
    push(line, ">")?;
    push_products(alloc, line, recipe.products.as_slice())
}

fn push_names(line: &mut String, word: &str, names: &[Text]) -> Result<(), NoMemory> {
    for name in names {
        push(line, word)?;
        push(line, name.as_str())?;
    }
    Ok(())
}

fn push_packs(alloc: Global, line: &mut String, packs: &[RawPack]) -> Result<(), NoMemory> {
    for pack in packs {
        push(line, "takes")?;
        push(line, pack.name.as_str())?;
        push_number(alloc, line, &pack.amount)?;
    }
    Ok(())
}

fn push_tech(alloc: Global, line: &mut String, tech: &RawTech) -> Result<(), NoMemory> {
    push_flag(line, tech.enabled)?;
    push_optional(alloc, line, &tech.count)?;
    push_number(alloc, line, &tech.time)?;
    push_names(line, "needs", tech.prerequisites.as_slice())?;
    push_names(line, "unlocks", tech.unlocks.as_slice())?;
    push_packs(alloc, line, tech.ingredients.as_slice())
}

fn push_fault(line: &mut String, fault: &DumpFault) -> Result<(), NoMemory> {
    push(line, dump_code(fault.code))?;
    push(line, fault.section.as_str())?;
    push(line, fault.name.as_str())?;
    push(line, fault.field.as_str())
}

fn push_read_recipe(
    alloc: Global,
    line: &mut String,
    read: &Result<RawRecipe, DumpFault>,
) -> Result<(), NoMemory> {
    match read {
        Ok(recipe) => push_recipe(alloc, line, recipe),
        Err(fault) => push_fault(line, fault),
    }
}

fn push_read_tech(
    alloc: Global,
    line: &mut String,
    read: &Result<RawTech, DumpFault>,
) -> Result<(), NoMemory> {
    match read {
        Ok(tech) => push_tech(alloc, line, tech),
        Err(fault) => push_fault(line, fault),
    }
}

fn is_recipe_so(alloc: Global, prototype: &SpanTree<'_>, expected: &str) -> Result<bool, NoMemory> {
    let mut names = Names::make(alloc);
    let read = read_recipe(alloc, "p", prototype, &mut names);
    let mut line = String::new(alloc);
    push_read_recipe(alloc, &mut line, &read)?;
    Ok(line.as_str() == expected)
}

fn is_tech_so(alloc: Global, prototype: &SpanTree<'_>, expected: &str) -> Result<bool, NoMemory> {
    let read = read_tech(alloc, "p", prototype);
    let mut line = String::new(alloc);
    push_read_tech(alloc, &mut line, &read)?;
    Ok(line.as_str() == expected)
}

fn is_prototype_so(
    alloc: Global,
    section: &str,
    prototype: Option<&SpanTree<'_>>,
    expected: &str,
) -> Result<bool, NoMemory> {
    match prototype {
        Some(prototype) => match section {
            "recipe" => is_recipe_so(alloc, prototype, expected),
            _ => is_tech_so(alloc, prototype, expected),
        },
        None => Ok(false),
    }
}

fn is_tree_so(
    alloc: Global,
    section: &str,
    tree: &Result<SpanTree<'_>, JsonFault>,
    expected: &str,
) -> Result<bool, NoMemory> {
    match tree {
        Ok(tree) => is_prototype_so(alloc, section, first_prototype(tree), expected),
        Err(_) => Ok(false),
    }
}

// What is read of the one prototype `p` of a section.
fn is_text_so(
    alloc: Global,
    section: &str,
    text: &str,
    expected: &str,
    kept: &Wanted,
) -> Result<bool, NoMemory> {
    let tree = read_spans(alloc, text.as_bytes(), kept);
    is_tree_so(alloc, section, &tree, expected)
}

fn is_row_so(alloc: Global, row: &str, kept: &Wanted) -> Result<bool, NoMemory> {
    let Some((section, rest)) = row.split_once('|') else {
        return Ok(false);
    };
    match rest.split_once('|') {
        Some((text, expected)) => is_text_so(alloc, section, text, expected, kept),
        None => Ok(false),
    }
}

#[test]
fn prototypes_are_read(rt: HostRuntime) -> Result<(), Fail> {
    let kept = wanted(rt.alloc(), "recipe technology", kept_fields())?;
    for row in rows().lines() {
        if !is_row_so(rt.alloc(), row, &kept)? {
            panic!(rt; "{row}");
        }
    }
    Ok(())
}
