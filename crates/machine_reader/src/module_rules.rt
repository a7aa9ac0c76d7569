//! What modules and beacons may do in a machine, by its fields.
ghost use Rattle.std.specs.Prelude.{◌≡◌, ◌∷◌, []};
ghost use Rattle.prototype_fields.specs.Seen.{object_seen};
ghost use Rattle.prototype_fields.specs.Values.{Gives};
ghost use Rattle.machine_reader.specs.Machines.{slots_of, has_text, allowed_by, allowed_list, allowed_of, module_rules_of, beacon_rules_of};

use fractions::Ratio;
use game_types::Allowed;
use plan_base::Text;
use prototype_fields::{FieldFault, Fields, Key, Within, as_text};
use std::alloc::Global;

/// What a machine says of modules: how many it holds, the effects that it takes, and its productivity without any.
#[derive(Clone, Copy)]
pub struct ModuleRules {
    pub slots: u32,
    pub allowed: Allowed,
    pub base_productivity: Ratio,
}

pub const ALL_ALLOWED: Allowed = Allowed {
    speed: true,
    productivity: true,
    consumption: true,
    pollution: true,
};

pub const NONE_ALLOWED: Allowed = Allowed {
    speed: false,
    productivity: false,
    consumption: false,
    pollution: false,
};

// How many modules a machine holds.
#[tactic(auto, unfolding(crate::specs::Machines::slots_of))]
pub fn read_slots(fields: &Fields<'_, '_>) -> Result<u32, FieldFault>
    ensures { result ≡ slots_of (object_seen fields.now) }
{
    let specification = fields.object_or_empty(
        Key::ModuleSpecification,
        Within::ModuleSpecification,
    )?;
    specification.whole_or(Key::ModuleSlots, 0)
}

fn has_text(texts: &[Text], wanted: &str) -> bool
    ensures { result ≡ has_text texts.now wanted.now }
{
    texts
        .iter()
        .any(|text| text.as_str().as_bytes() == wanted.as_bytes())
}

// The effects that texts name.
fn allowed_by(texts: &[Text]) -> Allowed
    ensures { result ≡ allowed_by texts.now }
{
    Allowed {
        speed: has_text(texts, "speed"),
        productivity: has_text(texts, "productivity"),
        consumption: has_text(texts, "consumption"),
        pollution: has_text(texts, "pollution"),
    }
}

// The effects that a list of texts names.
#[tactic(auto, unfolding(crate::specs::Machines::allowed_list))]
fn allowed_list(alloc: Global, fields: &Fields<'_, '_>) -> Result<Allowed, FieldFault>
    ensures { Gives (allowed_list (object_seen fields.now)) result }
{
    let elements = fields.required_list(Key::AllowedEffects)?;
    let texts = fields.names_in(alloc, Key::AllowedEffects, elements)?;
    Ok(allowed_by(texts.as_slice()))
}

// The effect that a text names.
fn allowed_text(text: &str) -> Allowed
    ensures { result ≡ allowed_by (text.now ∷ []) }
{
    Allowed {
        speed: text == "speed",
        productivity: text == "productivity",
        consumption: text == "consumption",
        pollution: text == "pollution",
    }
}

// The effects that a machine takes.
#[tactic(auto, unfolding(crate::specs::Machines::allowed_of))]
pub fn read_allowed(
    alloc: Global,
    fields: &Fields<'_, '_>,
    default: Allowed,
) -> Result<Allowed, FieldFault>
    ensures { Gives (allowed_of (object_seen fields.now) default) result }
{
    let Some(value) = fields.field(Key::AllowedEffects) else {
        return Ok(default);
    };
    match as_text(value) {
        Some(text) => Ok(allowed_text(text)),
        None => allowed_list(alloc, fields),
    }
}

// What a machine says of modules, with the effects that it takes where it names none.
#[tactic(auto, unfolding(crate::specs::Machines::module_rules_of))]
pub fn read_module_rules(
    alloc: Global,
    fields: &Fields<'_, '_>,
    default: Allowed,
) -> Result<ModuleRules, FieldFault>
    ensures { Gives (module_rules_of (object_seen fields.now) default) result }
{
    let slots = read_slots(fields)?;
    let allowed = read_allowed(alloc, fields, default)?;
    let base_productivity = fields.number_or(Key::BaseProductivity, Ratio::zero())?;
    Ok(ModuleRules {
        slots,
        allowed,
        base_productivity,
    })
}

// The same of a beacon, which makes nothing.
#[tactic(auto, unfolding(crate::specs::Machines::beacon_rules_of))]
pub fn read_beacon_rules(alloc: Global, fields: &Fields<'_, '_>) -> Result<ModuleRules, FieldFault>
    ensures { Gives (beacon_rules_of (object_seen fields.now)) result }
{
    let slots = read_slots(fields)?;
    let allowed = read_allowed(alloc, fields, NONE_ALLOWED)?;
    Ok(ModuleRules {
        slots,
        allowed,
        base_productivity: Ratio::zero(),
    })
}
