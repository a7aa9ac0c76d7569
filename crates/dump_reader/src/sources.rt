//! What is mined.
ghost use Rattle.std.specs.Prelude.{◌≡◌, [], IfOk, IfSome, option_map, is_some, unwrap_or, codes};
ghost use Rattle.fractions.specs.Limits.{IsBelow};
ghost use Rattle.prototype_fields.specs.Seen.{object_seen};
ghost use Rattle.prototype_fields.specs.Values.{Gives, with_names};
ghost use Rattle.dump_reader.specs.Sources.{or_none, tenth_of, fluid_taken, taken_of, drilled_of, if_minable, mined_of, category_of, resource_of, gathered_of, plant_of};

use crate::raw::RawSource;
use craft_reader::{RawProduct, products};
use fractions::Ratio;
use machine_reader::Section;
use name_table::Names;
use plan_base::{Items, NoMemory, Text};
use prototype_fields::{FieldFault, Fields, Key, Within, tenth};
use std::alloc::Global;

// The products, of which there may be none.
fn or_none(alloc: Global, products: Option<Items<RawProduct>>) -> Items<RawProduct>
    ensures { result ≡ or_none products }
{
    match products {
        Some(products) => products,
        None => Items::from_vec(Vec::new(alloc)),
    }
}

// The fluid that one operation takes.
fn fluid_taken(
    alloc: Global,
    fluid: Option<&str>,
    amount: Option<Ratio>,
) -> Result<Option<(Text, Ratio)>, NoMemory>
    requires { IfSome amount (IsBelow 120) }
    ensures { IfOk result (λ taken. taken ≡ fluid_taken (option_map (λ text. text.now) fluid.entry) amount) }
{
    let Some(fluid) = fluid else {
        return Ok(None);
    };
    let fluid = Text::copy(alloc, fluid)?;
    match amount {
        Some(amount) => Ok(Some((fluid, tenth(&amount)))),
        None => Ok(Some((fluid, Ratio::zero()))),
    }
}

// The fluid that one operation takes, where it takes one.
#[tactic(auto, unfolding(crate::specs::Sources::taken_of))]
fn read_taken(alloc: Global, minable: &Fields<'_, '_>) -> Result<Option<(Text, Ratio)>, FieldFault>
    ensures { Gives (taken_of (object_seen minable.now)) result }
{
    let fluid = minable.name(Key::RequiredFluid)?;
    let amount = minable.amount(Key::FluidAmount)?;
    Ok(fluid_taken(alloc, fluid, amount)?)
}

#[tactic(auto, unfolding(crate::specs::Sources::drilled_of))]
fn read_drilled(
    alloc: Global,
    section: Section,
    category: u32,
    placed: bool,
    minable: &Fields<'_, '_>,
) -> Result<RawSource, FieldFault>
    ensures { Gives (drilled_of section category placed (object_seen minable.now)) result }
{
    let time = minable.required_positive(Key::MiningTime)?;
    let products = products(alloc, Within::MinableResults, minable, Key::Count)?;
    let fluid = read_taken(alloc, minable)?;
    Ok(RawSource {
        section,
        drilled: true,
        category,
        time,
        placed,
        products: or_none(alloc, products),
        fluid,
    })
}

// A resource, where it can be mined.
#[tactic(auto, unfolding(crate::specs::Sources::mined_of))]
fn read_mined(
    alloc: Global,
    section: Section,
    category: u32,
    placed: bool,
    minable: &Option<Fields<'_, '_>>,
) -> Result<Option<RawSource>, FieldFault>
    ensures { Gives (mined_of section category placed (option_map object_seen minable.now)) result }
{
    match minable {
        Some(minable) => Ok(Some(read_drilled(alloc, section, category, placed, minable)?)),
        None => Ok(None),
    }
}

// The category of resources that name none.
fn basic_solid() -> &'static str
    ensures { result.now ≡ codes "basic-solid" }
{
    "basic-solid"
}

// The category of a resource.
#[tactic(auto, unfolding(crate::specs::Sources::category_of))]
fn read_category(fields: &Fields<'_, '_>, names: &mut Names) -> Result<u32, FieldFault>
    ensures { Gives (category_of (object_seen fields.now) names.old) (with_names names.new result) }
{
    let name = fields.name_or(Key::Category, basic_solid())?;
    fields.category(Key::Category, name, names)
}

/// A resource, which drills mine; None where it can't be mined.
#[tactic(auto, unfolding(crate::specs::Sources::resource_of))]
pub fn read_resource(
    alloc: Global,
    section: Section,
    fields: &Fields<'_, '_>,
    names: &mut Names,
) -> Result<Option<RawSource>, FieldFault>
    ensures { Gives (resource_of section (object_seen fields.now) names.old) (with_names names.new result) }
{
    let minable = fields.object(Key::Minable, Within::Minable)?;
    let category = read_category(fields, names)?;
    let autoplace = fields.object(Key::Autoplace, Within::Prototype)?;
    read_mined(alloc, section, category, autoplace.is_some(), &minable)
}

#[tactic(auto, unfolding(crate::specs::Sources::gathered_of))]
fn read_gathered(
    alloc: Global,
    section: Section,
    placed: bool,
    minable: &Fields<'_, '_>,
) -> Result<RawSource, FieldFault>
    ensures { Gives (gathered_of section placed (object_seen minable.now)) result }
{
    let products = products(alloc, Within::MinableResults, minable, Key::Count)?;
    Ok(RawSource {
        section,
        drilled: false,
        category: 0,
        time: Ratio::one(),
        placed,
        products: or_none(alloc, products),
        fluid: None,
    })
}

/// What no drill mines: a tree, a rock, a fish; None where it can't be mined.
#[tactic(auto, unfolding(crate::specs::Sources::plant_of))]
pub fn read_plant(
    alloc: Global,
    section: Section,
    fields: &Fields<'_, '_>,
) -> Result<Option<RawSource>, FieldFault>
    ensures { Gives (plant_of section (object_seen fields.now)) result }
{
    let minable = fields.object(Key::Minable, Within::Minable)?;
    let autoplace = fields.object(Key::Autoplace, Within::Prototype)?;
    let placed = autoplace.is_some();
    match minable {
        Some(minable) => Ok(Some(read_gathered(alloc, section, placed, &minable)?)),
        None => Ok(None),
    }
}
