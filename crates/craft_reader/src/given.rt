//! What recipes and launches give, by the fields of a dump.
ghost use Rattle.std.specs.Prelude.{◌≡◌, [], ◌∷◌, Ok, option_map};
ghost use Rattle.json_text.specs.SpanSeen.{span_seen, spans_seen};
ghost use Rattle.prototype_fields.specs.Seen.{object_seen};
ghost use Rattle.prototype_fields.specs.Values.{◌▸◌, Gives, each};
ghost use Rattle.craft_reader.specs.Goods.{at_most_one, bounds_beside, form_of, good_kind, item_product, launch_products, lone_launch, lone_product, named_good, product, product_range, products, range_beside};
ghost use Rattle.craft_reader.specs.Seen.{form_seen};

use crate::goods::{Form, GoodKind, NamedGood, form_of, good_kind, named_good};
use fractions::Ratio;
use json_text::SpanTree;
use plan_base::{Items, Text};
use prototype_fields::{FieldCode, FieldFault, Fields, Key, Within, is_less};
use std::alloc::Global;

/// A product.
#[derive(Drop)]
pub struct RawProduct {
    pub good: NamedGood,
    /// The least amount.
    pub low: Ratio,
    /// The greatest amount.
    pub high: Ratio,
    pub probability: Ratio,
    /// How much of it productivity does not add to.
    pub catalyst: Ratio,
    pub temperature: Option<Ratio>,
}

// The bounds of the temperature of an ingredient, where it names no one temperature.
pub fn bounds_beside(
    fields: &Fields<'_, '_>,
    temperature: Option<Ratio>,
) -> Result<(Option<Ratio>, Option<Ratio>), FieldFault>
    ensures { result ≡ bounds_beside (object_seen fields.now) temperature }
{
    if temperature.is_some() {
        return Ok((temperature, temperature));
    }
    let low = fields.number(Key::MinimumTemperature)?;
    let high = fields.number(Key::MaximumTemperature)?;
    Ok((low, high))
}

// The least and the greatest amount of a product that names no one amount.
fn range_beside(
    fields: &Fields<'_, '_>,
    amount: Option<Ratio>,
) -> Result<(Ratio, Ratio), FieldFault>
    ensures { result ≡ range_beside (object_seen fields.now) amount }
{
    if let Some(amount) = amount {
        return Ok((amount, amount));
    }
    let low = fields.required_amount(Key::AmountMin)?;
    let high = fields.required_amount(Key::AmountMax)?;
    Ok((low, if is_less(&high, &low) { low } else { high }))
}

// The least and the greatest amount of a product.
#[tactic(auto, unfolding(crate::specs::Goods::product_range, crate::specs::Seen::form_seen))]
fn product_range(form: &Form<'_, '_>) -> Result<(Ratio, Ratio), FieldFault>
    ensures { result ≡ product_range (form_seen form.now) }
{
    if form.listed {
        let amount = form.fields.amount_or(Key::Amount, Ratio::one())?;
        Ok((amount, amount))
    } else {
        range_beside(&form.fields, form.fields.amount(Key::Amount)?)
    }
}

fn at_most_one(probability: Ratio) -> Ratio
    ensures { result ≡ at_most_one probability }
{
    let one = Ratio::one();
    if is_less(&one, &probability) {
        one
    } else {
        probability
    }
}

/// A product.
///
/// # Errors
///
/// The first fault of its fields. `NoMemory` where memory could not be had.
#[tactic(auto, unfolding(crate::specs::Goods::product, crate::specs::Seen::form_seen))]
pub fn product(
    alloc: Global,
    within: Within,
    element: &SpanTree<'_>,
) -> Result<RawProduct, FieldFault>
    ensures { Gives (product within (span_seen element.now)) result }
{
    let form = form_of(within, element)?;
    let good = named_good(alloc, &form.fields)?;
    let (low, high) = product_range(&form)?;
    let probability = form.fields.amount_or(Key::Probability, Ratio::one())?;
    let catalyst = form.fields.amount_or(Key::CatalystAmount, Ratio::zero())?;
    let temperature = form.fields.number(Key::Temperature)?;
    Ok(RawProduct {
        good,
        low,
        high,
        probability: at_most_one(probability),
        catalyst,
        temperature,
    })
}

// A product that is an item.
#[tactic(auto, unfolding(crate::specs::Goods::item_product, crate::specs::Seen::form_seen))]
fn item_product(
    alloc: Global,
    within: Within,
    element: &SpanTree<'_>,
) -> Result<RawProduct, FieldFault>
    ensures { Gives (item_product within (span_seen element.now)) result }
{
    let form = form_of(within, element)?;
    match good_kind(&form.fields)? {
        GoodKind::Item => product(alloc, within, element),
        GoodKind::Fluid => Err(form.fields.fault(FieldCode::WrongKind, Key::TypeName)),
    }
}

fn each_item_product(
    alloc: Global,
    within: Within,
    elements: &[SpanTree<'_>],
) -> Result<Items<RawProduct>, FieldFault>
    ensures { Gives (each (item_product within) (spans_seen elements.now)) result }
{
    let mut products = Vec::with_capacity(alloc, elements.len())?;
    for element in elements {
        let product = item_product(alloc, within, element)?;
        products.push(product)?;
    }
    Ok(Items::from_vec(products))
}

// The one product of a launch, where it is there.
fn lone_launch(
    alloc: Global,
    element: Option<&SpanTree<'_>>,
) -> Result<Items<RawProduct>, FieldFault>
    ensures { Gives (lone_launch (option_map (λ value. span_seen value.now) element.entry)) result }
{
    let mut products = Vec::new(alloc);
    if let Some(element) = element {
        let product = item_product(alloc, Within::RocketLaunchProduct, element)?;
        products.push(product)?;
    }
    Ok(Items::from_vec(products))
}

/// What the launch of an item brings back: the products of `rocket_launch_products`, or where that is absent the one of
/// `rocket_launch_product`, where that is there.
///
/// # Errors
///
/// The first fault of the fields; a fluid is of the wrong kind. `NoMemory` where memory could not be had.
#[tactic(auto, unfolding(crate::specs::Goods::launch_products))]
pub fn launch_products(
    alloc: Global,
    fields: &Fields<'_, '_>,
) -> Result<Items<RawProduct>, FieldFault>
    ensures { Gives (launch_products (object_seen fields.now)) result }
{
    match fields.short_list(Key::RocketLaunchProducts)? {
        Some(elements) => each_item_product(alloc, Within::RocketLaunchProducts, elements),
        None => lone_launch(alloc, fields.field(Key::RocketLaunchProduct)),
    }
}

// The product of a lone name.
#[tactic(auto, unfolding(crate::specs::Goods::lone_product))]
fn lone_product(
    alloc: Global,
    fields: &Fields<'_, '_>,
    count: Key,
    name: &str,
) -> Result<RawProduct, FieldFault>
    ensures { Gives (lone_product (object_seen fields.now) count name.now) result }
{
    let count = fields.amount_or(count, Ratio::one())?;
    Ok(RawProduct {
        good: NamedGood {
            kind: GoodKind::Item,
            name: Text::copy(alloc, name)?,
            within: fields.within(),
            key: Key::ResultName,
        },
        low: count,
        high: count,
        probability: Ratio::one(),
        catalyst: Ratio::zero(),
        temperature: None,
    })
}

fn each_product(
    alloc: Global,
    within: Within,
    elements: &[SpanTree<'_>],
) -> Result<Items<RawProduct>, FieldFault>
    ensures { Gives (each (product within) (spans_seen elements.now)) result }
{
    let mut products = Vec::with_capacity(alloc, elements.len())?;
    for element in elements {
        let product = product(alloc, within, element)?;
        products.push(product)?;
    }
    Ok(Items::from_vec(products))
}

// The product of a lone name, as a list.
fn lone_products(
    alloc: Global,
    fields: &Fields<'_, '_>,
    count: Key,
    name: &str,
) -> Result<Items<RawProduct>, FieldFault>
    ensures { Gives (lone_product (object_seen fields.now) count name.now ▸ λ product. Ok (product ∷ [])) result }
{
    let product = lone_product(alloc, fields, count, name)?;
    let mut products = Vec::with_capacity(alloc, 1)?;
    products.push(product)?;
    Ok(Items::from_vec(products))
}

/// The products of `results`, or where that is absent the one of `result`, with its count under a key, where that is
/// there.
///
/// # Errors
///
/// The first fault of the fields. `NoMemory` where memory could not be had.
#[tactic(auto, unfolding(crate::specs::Goods::products))]
pub fn products(
    alloc: Global,
    within: Within,
    fields: &Fields<'_, '_>,
    count: Key,
) -> Result<Option<Items<RawProduct>>, FieldFault>
    ensures { Gives (products within (object_seen fields.now) count) result }
{
    if let Some(elements) = fields.short_list(Key::Results)? {
        return Ok(Some(each_product(alloc, within, elements)?));
    }
    match fields.name(Key::ResultName)? {
        Some(name) => Ok(Some(lone_products(alloc, fields, count, name)?)),
        None => Ok(None),
    }
}
