//! Items and fluids.
ghost use Rattle.std.specs.Prelude.{◌≡◌};
ghost use Rattle.prototype_fields.specs.Seen.{object_seen};
ghost use Rattle.prototype_fields.specs.Values.{Gives, with_names};
ghost use Rattle.dump_reader.specs.Goods.{fluid_of, bonus_in, bonus_of, names_at, module_of, optional_module, fuel_of, fuel_in, item_of};

use crate::raw::{RawItem, RawModule};
use craft_reader::launch_products;
use fractions::Ratio;
use game_types::{Bonus, Fluid, Fuel};
use machine_reader::{Section, read_name};
use name_table::Names;
use plan_base::{Items, Text};
use prototype_fields::{FieldFault, Fields, Key, Within};
use std::alloc::Global;

/// A fluid.
pub fn read_fluid(fields: &Fields<'_, '_>) -> Result<Fluid, FieldFault>
    ensures { result ≡ fluid_of (object_seen fields.now) }
{
    let fuel_value = fields.energy_or(Key::FuelValue, Ratio::zero())?;
    let heat_capacity = fields.energy_or(Key::HeatCapacity, Ratio::whole(1000))?;
    let default_temperature = fields.number_or(Key::DefaultTemperature, Ratio::whole(15))?;
    Ok(Fluid {
        fuel_value,
        heat_capacity,
        default_temperature,
        of: None,
        at: default_temperature,
    })
}

// The bonus of one kind.
#[tactic(auto, unfolding(crate::specs::Goods::bonus_in))]
fn read_bonus(effect: &Fields<'_, '_>, key: Key, within: Within) -> Result<i64, FieldFault>
    ensures value { result ≡ bonus_in (object_seen effect.now) key within }
{
    let kind = effect.object_or_empty(key, within)?;
    kind.hundredths_or_zero(Key::Bonus)
}

fn read_effect(effect: &Fields<'_, '_>) -> Result<Bonus, FieldFault>
    ensures { result ≡ bonus_of (object_seen effect.now) }
{
    let speed = read_bonus(effect, Key::Speed, Within::EffectSpeed)?;
    let productivity = read_bonus(effect, Key::Productivity, Within::EffectProductivity)?;
    let consumption = read_bonus(effect, Key::Consumption, Within::EffectConsumption)?;
    let pollution = read_bonus(effect, Key::Pollution, Within::EffectPollution)?;
    Ok(Bonus {
        speed,
        productivity,
        consumption,
        pollution,
    })
}

// The names of a list, of which there may be none.
#[tactic(auto, unfolding(crate::specs::Goods::names_at))]
fn read_names(alloc: Global, fields: &Fields<'_, '_>, key: Key) -> Result<Items<Text>, FieldFault>
    ensures { Gives (names_at (object_seen fields.now) key) result }
{
    let elements = fields.list_or_empty(key)?;
    fields.names_in(alloc, key, elements)
}

#[tactic(auto, unfolding(crate::specs::Goods::module_of))]
fn read_module(alloc: Global, fields: &Fields<'_, '_>) -> Result<RawModule, FieldFault>
    ensures { Gives (module_of (object_seen fields.now)) result }
{
    let effect = fields.object_or_empty(Key::Effect, Within::Effect)?;
    let bonus = read_effect(&effect)?;
    let limitation = read_names(alloc, fields, Key::Limitation)?;
    let blacklist = read_names(alloc, fields, Key::LimitationBlacklist)?;
    Ok(RawModule {
        bonus,
        limitation,
        blacklist,
    })
}

#[tactic(auto, unfolding(crate::specs::Goods::optional_module))]
fn optional_module(
    alloc: Global,
    section: Section,
    fields: &Fields<'_, '_>,
) -> Result<Option<RawModule>, FieldFault>
    ensures { Gives (optional_module section (object_seen fields.now)) result }
{
    match section {
        Section::Module => Ok(Some(read_module(alloc, fields)?)),
        _ => Ok(None),
    }
}

fn fuel_of(category: Option<u32>, value: Ratio, emissions: Ratio) -> Option<Fuel>
    ensures { result ≡ fuel_of category value emissions }
{
    match category {
        Some(category) => Some(Fuel {
            category,
            value,
            emissions,
        }),
        None => None,
    }
}

// What an item is as a fuel, where it is one.
#[tactic(auto, unfolding(crate::specs::Goods::fuel_in))]
fn read_fuel(fields: &Fields<'_, '_>, names: &mut Names) -> Result<Option<Fuel>, FieldFault>
    ensures { Gives (fuel_in (object_seen fields.now) names.old) (with_names names.new result) }
{
    let category = fields.name(Key::FuelCategory)?;
    let category = fields.optional_category(Key::FuelCategory, category, names)?;
    let value = fields.energy_or(Key::FuelValue, Ratio::zero())?;
    let emissions = fields.amount_or(Key::FuelEmissionsMultiplier, Ratio::one())?;
    Ok(fuel_of(category, value, emissions))
}

/// An item.
pub fn read_item(
    alloc: Global,
    section: Section,
    fields: &Fields<'_, '_>,
    names: &mut Names,
) -> Result<RawItem, FieldFault>
    ensures { Gives (item_of section (object_seen fields.now) names.old) (with_names names.new result) }
{
    let place = read_name(alloc, fields, Key::PlaceResult)?;
    let fuel = read_fuel(fields, names)?;
    let burnt = read_name(alloc, fields, Key::BurntResult)?;
    let module = optional_module(alloc, section, fields)?;
    let launch = launch_products(alloc, fields)?;
    Ok(RawItem {
        section,
        place,
        fuel,
        burnt,
        module,
        launch,
    })
}
