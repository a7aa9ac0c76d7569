//! Ingredients, products and science packs.
ghost use Rattle.std.specs.Prelude.{◌≡◌, Ok};
ghost use Rattle.json_text.specs.SpanSeen.{span_seen, spans_seen};
ghost use Rattle.prototype_fields.specs.Seen.{object_seen};
ghost use Rattle.prototype_fields.specs.Values.{Gives, each, seen_as};
ghost use Rattle.craft_reader.specs.Goods.{bounds_beside, form_amount, form_of, good_kind, ingredient, kind_of, list_form, named_good, pack, temperatures};
ghost use Rattle.craft_reader.specs.Seen.{form_seen};

use crate::given::bounds_beside;
use fractions::Ratio;
use json_text::SpanTree;
use plan_base::{Items, Text};
use prototype_fields::{FieldCode, FieldFault, Fields, Key, Within, as_list, as_object};
use std::alloc::Global;

/// Whether a good is an item or a fluid.
#[derive(Clone, Copy, Debug, PartialEq, Eq)]
pub enum GoodKind {
    Item,
    Fluid,
}

/// A good by its name, and the field that names it.
#[derive(Drop)]
pub struct NamedGood {
    pub kind: GoodKind,
    pub name: Text,
    pub within: Within,
    pub key: Key,
}

/// A science pack, which is an item.
#[derive(Drop)]
pub struct RawPack {
    pub name: Text,
    pub amount: Ratio,
}

/// An ingredient.
#[derive(Drop)]
pub struct RawPart {
    pub good: NamedGood,
    pub amount: Ratio,
    /// The least temperature of a fluid.
    pub low: Option<Ratio>,
    /// The greatest temperature of a fluid.
    pub high: Option<Ratio>,
}

// An element of a list of ingredients or products: the fields of an object, or a list that stands for one.
#[derive(Clone, Copy)]
pub struct Form<'t, 'b> {
    pub fields: Fields<'t, 'b>,
    pub listed: bool,
}

#[tactic(auto, unfolding(crate::specs::Seen::form_seen))]
fn list_form<'t, 'b>(
    within: Within,
    elements: &'t [SpanTree<'b>],
) -> Result<Form<'t, 'b>, FieldFault>
    ensures { seen_as form_seen result ≡ list_form within (Some (spans_seen elements.now)) }
{
    match elements {
        [_] | [_, _] => Ok(Form {
            fields: Fields::of_pair(within, elements),
            listed: true,
        }),
        _ => Err(FieldFault::of_element(FieldCode::WrongKind, within)),
    }
}

#[tactic(auto, unfolding(crate::specs::Goods::form_of, crate::specs::Seen::form_seen))]
pub fn form_of<'t, 'b>(
    within: Within,
    element: &'t SpanTree<'b>,
) -> Result<Form<'t, 'b>, FieldFault>
    ensures { seen_as form_seen result ≡ form_of within (span_seen element.now) }
{
    if let Some(members) = as_object(element) {
        return Ok(Form {
            fields: Fields::of_members(within, members),
            listed: false,
        });
    }
    match as_list(element) {
        Some(elements) => list_form(within, elements),
        None => Err(FieldFault::of_element(FieldCode::WrongKind, within)),
    }
}

// The kind that a text spells.
fn kind_of(spelled: &str) -> Option<GoodKind>
    ensures { result ≡ kind_of spelled.now }
{
    match spelled {
        "item" => Some(GoodKind::Item),
        "fluid" => Some(GoodKind::Fluid),
        _ => None,
    }
}

#[tactic(auto, unfolding(crate::specs::Goods::good_kind))]
pub fn good_kind(fields: &Fields<'_, '_>) -> Result<GoodKind, FieldFault>
    ensures { result ≡ good_kind (object_seen fields.now) }
{
    let Some(spelled) = fields.text(Key::TypeName)? else {
        return Ok(GoodKind::Item);
    };
    match kind_of(spelled) {
        Some(kind) => Ok(kind),
        None => Err(fields.fault(FieldCode::WrongKind, Key::TypeName)),
    }
}

#[tactic(auto, unfolding(crate::specs::Goods::named_good))]
pub fn named_good(alloc: Global, fields: &Fields<'_, '_>) -> Result<NamedGood, FieldFault>
    ensures { Gives (named_good (object_seen fields.now)) result }
{
    let kind = good_kind(fields)?;
    let name = fields.required_name(Key::Name)?;
    Ok(NamedGood {
        kind,
        name: Text::copy(alloc, name)?,
        within: fields.within(),
        key: Key::Name,
    })
}

#[tactic(auto, unfolding(crate::specs::Goods::form_amount, crate::specs::Seen::form_seen))]
fn form_amount(form: &Form<'_, '_>) -> Result<Ratio, FieldFault>
    ensures { result ≡ form_amount (form_seen form.now) }
{
    if form.listed {
        form.fields.amount_or(Key::Amount, Ratio::one())
    } else {
        form.fields.required_amount(Key::Amount)
    }
}

// The bounds of the temperature of an ingredient.
#[tactic(auto, unfolding(crate::specs::Goods::temperatures))]
fn temperatures(
    fields: &Fields<'_, '_>,
    kind: GoodKind,
) -> Result<(Option<Ratio>, Option<Ratio>), FieldFault>
    ensures { result ≡ temperatures (object_seen fields.now) kind }
{
    match kind {
        GoodKind::Item => Ok((None, None)),
        GoodKind::Fluid => bounds_beside(fields, fields.number(Key::Temperature)?),
    }
}

/// An ingredient.
///
/// # Errors
///
/// The first fault of its fields. `NoMemory` where memory could not be had.
#[tactic(auto, unfolding(crate::specs::Goods::ingredient, crate::specs::Seen::form_seen))]
pub fn ingredient(
    alloc: Global,
    within: Within,
    element: &SpanTree<'_>,
) -> Result<RawPart, FieldFault>
    ensures { Gives (ingredient within (span_seen element.now)) result }
{
    let form = form_of(within, element)?;
    let good = named_good(alloc, &form.fields)?;
    let amount = form_amount(&form)?;
    let (low, high) = temperatures(&form.fields, good.kind)?;
    Ok(RawPart {
        good,
        amount,
        low,
        high,
    })
}

/// A science pack.
///
/// # Errors
///
/// The first fault of its fields; a fluid is of the wrong kind. `NoMemory` where memory could not be had.
#[tactic(auto, unfolding(crate::specs::Goods::pack, crate::specs::Seen::form_seen))]
pub fn pack(alloc: Global, within: Within, element: &SpanTree<'_>) -> Result<RawPack, FieldFault>
    ensures { Gives (pack within (span_seen element.now)) result }
{
    let form = form_of(within, element)?;
    if good_kind(&form.fields)? == GoodKind::Fluid {
        return Err(form.fields.fault(FieldCode::WrongKind, Key::TypeName));
    }
    let name = form.fields.required_name(Key::Name)?;
    let amount = form_amount(&form)?;
    Ok(RawPack {
        name: Text::copy(alloc, name)?,
        amount,
    })
}

/// Ingredients.
///
/// # Errors
///
/// The first fault of an ingredient. `NoMemory` where memory could not be had.
pub fn ingredients(
    alloc: Global,
    within: Within,
    elements: &[SpanTree<'_>],
) -> Result<Items<RawPart>, FieldFault>
    ensures { Gives (each (ingredient within) (spans_seen elements.now)) result }
{
    let mut parts = Vec::with_capacity(alloc, elements.len())?;
    for element in elements {
        let part = ingredient(alloc, within, element)?;
        parts.push(part)?;
    }
    Ok(Items::from_vec(parts))
}

/// Science packs.
///
/// # Errors
///
/// The first fault of a science pack. `NoMemory` where memory could not be had.
pub fn packs(
    alloc: Global,
    within: Within,
    elements: &[SpanTree<'_>],
) -> Result<Items<RawPack>, FieldFault>
    ensures { Gives (each (pack within) (spans_seen elements.now)) result }
{
    let mut packs = Vec::with_capacity(alloc, elements.len())?;
    for element in elements {
        let pack = pack(alloc, within, element)?;
        packs.push(pack)?;
    }
    Ok(Items::from_vec(packs))
}
