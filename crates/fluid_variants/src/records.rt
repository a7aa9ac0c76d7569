//! The records of fluids.
ghost use Rattle.std.specs.Prelude.{◌≡◌, ◌++◌, IfOk, map};
ghost use Rattle.fluid_variants.specs.Records.{at_one, records, variant, variant_name, variant_names};

use fractions::Ratio;
use game_types::Fluid;
use plan_base::{GoodId, NoMemory, Text};
use std::alloc::Global;

fn at_one(fluid: &Fluid, at: Ratio) -> Fluid
    ensures { result ≡ at_one fluid.now at }
{
    Fluid {
        fuel_value: fluid.fuel_value,
        heat_capacity: fluid.heat_capacity,
        default_temperature: fluid.default_temperature,
        of: None,
        at,
    }
}

fn variant(base: GoodId, fluid: &Fluid, at: Ratio) -> Fluid
    ensures { result ≡ variant base fluid.now at }
{
    Fluid {
        fuel_value: fluid.fuel_value,
        heat_capacity: fluid.heat_capacity,
        default_temperature: fluid.default_temperature,
        of: Some(base),
        at,
    }
}

#[tactic(auto, using(plan_base::proofs::Walks::map_next, plan_base::proofs::Walks::map_end))]
fn put_variants(
    list: &mut Vec<Fluid>,
    base: GoodId,
    fluid: &Fluid,
    temperatures: &[Ratio],
) -> Result<(), NoMemory>
    ensures { IfOk result (λ done. list.new.items ≡ list.old.items ++ map (variant base fluid.now) temperatures.now) }
{
    for at in temperatures {
        list.push(variant(base, fluid, *at))?;
    }
    Ok(())
}

/// The records of a fluid by its temperatures, where the first of them is this good, behind others.
pub fn put_records(
    list: &mut Vec<Fluid>,
    first: GoodId,
    fluid: &Fluid,
    temperatures: &[Ratio],
) -> Result<(), NoMemory>
    ensures { IfOk result (λ done. list.new.items ≡ list.old.items ++ records first fluid.now temperatures.now) }
{
    match temperatures {
        [] => list.push(at_one(fluid, fluid.default_temperature))?,
        [at] => list.push(at_one(fluid, *at))?,
        _ => {
            list.push(at_one(fluid, fluid.default_temperature))?;
            put_variants(list, first, fluid, temperatures)?;
        }
    }
    Ok(())
}

// `NAME@TEMPERATURE`.
fn variant_name(alloc: Global, name: &str, at: &Ratio) -> Result<Text, NoMemory>
    ensures { IfOk result (λ text. text ≡ variant_name name.now at.now) }
{
    let at = at.print(alloc)?;
    let at = at.as_str();
    Ok(Text::from_string(format!(in alloc; "{name}@{at}")?))
}

#[tactic(auto, using(plan_base::proofs::Walks::map_next, plan_base::proofs::Walks::map_end))]
fn put_each_name(
    alloc: Global,
    list: &mut Vec<Text>,
    name: &str,
    temperatures: &[Ratio],
) -> Result<(), NoMemory>
    ensures { IfOk result (λ done. list.new.items ≡ list.old.items ++ map (variant_name name.now) temperatures.now) }
{
    for at in temperatures {
        let text = variant_name(alloc, name, at)?;
        list.push(text)?;
    }
    Ok(())
}

/// The names of a fluid's variants by its temperatures, behind others.
pub fn put_variant_names(
    alloc: Global,
    list: &mut Vec<Text>,
    name: &str,
    temperatures: &[Ratio],
) -> Result<(), NoMemory>
    ensures { IfOk result (λ done. list.new.items ≡ list.old.items ++ variant_names name.now temperatures.now) }
{
    match temperatures {
        [] => {}
        [_] => {}
        _ => put_each_name(alloc, list, name, temperatures)?,
    }
    Ok(())
}
