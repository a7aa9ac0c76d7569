//! Why a set-up is refused.
use crate::{EffectKind, Wide};
use plan_base::{EntityId, GoodId};

/// What is wrong with the modules of a machine.
#[derive(Clone, Copy, Debug, PartialEq, Eq)]
pub enum ModuleFault {
    /// U1: there are more modules than slots; this is the module at which their number first passes the slots.
    TooMany(GoodId),
    /// U2: this module has an effect of this kind, which isn't allowed.
    Kind(GoodId, EffectKind),
    /// U3: this module may not be used for the recipe.
    Limited(GoodId),
}

/// What is wrong with the beacons round a machine.
#[derive(Clone, Copy, Debug, PartialEq, Eq)]
pub enum BeaconFault {
    /// B1: no machine shares this beacon.
    ShareZero(EntityId),
    /// U1: there are more modules than slots; this is the module at which their number first passes the slots.
    TooMany(GoodId),
    /// U2: this module has an effect of this kind, which isn't allowed in the beacon or in the machine.
    Kind(GoodId, EffectKind),
    /// U3: this module may not be used for the recipe.
    Limited(GoodId),
    /// A number of the sum is past the limits of fractions.
    Wide(Wide),
}

/// What is wrong with the fuel of a machine.
#[derive(Clone, Copy, Debug, PartialEq, Eq)]
pub enum FuelFault {
    /// L4: machines that take heat or a fluid for energy aren't planned.
    NotPlanned,
    /// L1: a burner needs a fuel.
    Needed,
    /// L3: the machine isn't a burner.
    NotTaken,
    /// L2: the burner doesn't take this item.
    NotAccepted,
}

/// Why a machine doesn't do what it is set to do.
#[derive(Clone, Copy, Debug, PartialEq, Eq)]
pub enum MachineFault {
    /// K1: machines of this kind or with these categories don't do it.
    Category,
    /// K2: it is fixed to another recipe.
    Fixed,
    /// K3: the source needs this fluid and the drill has no box for it.
    NoBox(GoodId),
}
