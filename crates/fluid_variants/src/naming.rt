//! The names of records, and which of them clash.
ghost use Rattle.std.specs.Prelude.{◌≡◌, ◌++◌, IfOk, length};
ghost use Rattle.name_table.specs.Names.{place_of};
ghost use Rattle.fluid_variants.specs.Contents.{contents};
ghost use Rattle.fluid_variants.specs.Naming.{IsNamed, lower_of, lowest_place};
ghost use Rattle.fluid_variants.specs.Records.{all_names, all_variant_names};

use crate::records::put_variant_names;
use fractions::Ratio;
use name_table::Names;
use plan_base::{NoMemory, Text};
use std::alloc::Global;

/// What comes of putting names into a table.
pub enum Named {
    All(Names),
    /// The name at this place is there already.
    Twice(usize),
    NoMemory,
}

// The names of all variants.
#[tactic(auto, using(crate::proofs::NameLemmas::variants_next, crate::proofs::NameLemmas::variants_end))]
fn all_variant_names(
    alloc: Global,
    names: &Names,
    lists: &[Vec<Ratio>],
) -> Result<Vec<Text>, NoMemory>
    requires { length lists.now ≡ length names.now }
    ensures { IfOk result (λ list. list.items ≡ all_variant_names names.now (contents lists.now)) }
{
    let mut list = Vec::new(alloc);
    for number in 0..names.len() {
        let temperatures = lists[number as usize].as_slice();
        put_variant_names(alloc, &mut list, names.name_of(number), temperatures)?;
    }
    Ok(list)
}

/// The names of all records.
#[tactic(auto, using(crate::proofs::NameLemmas::names_next, crate::proofs::NameLemmas::names_end))]
pub fn all_names(alloc: Global, names: &Names, lists: &[Vec<Ratio>]) -> Result<Vec<Text>, NoMemory>
    requires { length lists.now ≡ length names.now }
    ensures { IfOk result (λ list. list.items ≡ all_names names.now (contents lists.now)) }
{
    let mut list = Vec::new(alloc);
    for number in 0..names.len() {
        let temperatures = lists[number as usize].as_slice();
        let name = names.name_of(number);
        let own = Text::copy(alloc, name)?;
        list.push(own)?;
        put_variant_names(alloc, &mut list, name, temperatures)?;
    }
    Ok(list)
}

// The lower one of two places.
fn lower_of(place: Option<u32>, other: Option<u32>) -> Option<u32>
    ensures { result ≡ lower_of place other }
{
    match (place, other) {
        (None, other) => other,
        (Some(place), None) => Some(place),
        (Some(place), Some(other)) => {
            if other < place {
                Some(other)
            } else {
                Some(place)
            }
        }
    }
}

// The first place among names that one of others has.
#[tactic(auto, using(crate::proofs::NameLemmas::lower_next, crate::proofs::NameLemmas::lower_end))]
fn lowest_place(names: &Names, others: &[Text]) -> Option<u32>
    ensures { result ≡ lowest_place names.now others.now }
{
    let mut lowest = None;
    for name in others {
        lowest = lower_of(lowest, names.find(name.as_str()));
    }
    lowest
}

/// The place of the first fluid that has the name of a variant.
pub fn first_variant_name(
    alloc: Global,
    names: &Names,
    lists: &[Vec<Ratio>],
) -> Result<Option<u32>, NoMemory>
    requires { length lists.now ≡ length names.now }
    ensures { IfOk result (λ place. place ≡ lowest_place names.now (all_variant_names names.now (contents lists.now))) }
{
    let variants = all_variant_names(alloc, names, lists)?;
    Ok(lowest_place(names, variants.as_slice()))
}

/// Puts names into a table, up to the first that is there already.
#[tactic(auto, using(crate::proofs::NameLemmas::twice_stop, crate::proofs::NameLemmas::twice_pass, crate::proofs::NameLemmas::twice_none, crate::proofs::NameLemmas::one_more, crate::proofs::NameLemmas::all_taken))]
pub fn table_of(alloc: Global, names: &[Text]) -> Named
    ensures { IsNamed names.now result }
{
    let mut table = Names::make(alloc);
    let mut place = 0;
    for name in names {
        if table.find(name.as_str()).is_some() {
            return Named::Twice(place);
        }
        if table.intern(name.as_str()).is_err() {
            return Named::NoMemory;
        }
        place += 1;
    }
    Named::All(table)
}
