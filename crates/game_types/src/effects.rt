//! What modules and beacons change.
use fractions::Ratio;

/// The four kinds of effects, in the order in which they are looked at.
#[derive(Clone, Copy, Debug, PartialEq, Eq)]
pub enum EffectKind {
    Speed,
    Productivity,
    Consumption,
    Pollution,
}

/// What modules add to each kind of effect, in hundredths.
#[derive(Clone, Copy, Debug, PartialEq, Eq)]
pub struct Bonus {
    pub speed: i64,
    pub productivity: i64,
    pub consumption: i64,
    pub pollution: i64,
}

/// The kinds of effects that a machine or a beacon takes.
#[derive(Clone, Copy, Debug, PartialEq, Eq)]
pub struct Allowed {
    pub speed: bool,
    pub productivity: bool,
    pub consumption: bool,
    pub pollution: bool,
}

/// What the beacons of a set-up add to each kind of effect.
#[derive(Clone, Copy)]
pub struct BeaconSum {
    pub speed: Ratio,
    pub productivity: Ratio,
    pub consumption: Ratio,
    pub pollution: Ratio,
}

/// The effects on a machine, after their floors: the multipliers of speed, consumption and pollution, and the
/// productivity bonus.
#[derive(Clone, Copy)]
pub struct Effects {
    pub speed: Ratio,
    pub productivity: Ratio,
    pub consumption: Ratio,
    pub pollution: Ratio,
}

/// What one craft a second takes of a machine.
#[derive(Clone, Copy)]
pub struct Rates {
    /// How many machines.
    pub machines: Ratio,
    /// The electric power that they use, in watts.
    pub power: Ratio,
    /// The power that each machine takes beside that, in watts.
    pub drain: Ratio,
    /// The items of fuel that one craft burns.
    pub fuel: Ratio,
    /// What they pollute a minute.
    pub pollution: Ratio,
}

/// A number past the limits of fractions, at the step of the rates that forms it.
#[derive(Clone, Copy, Debug, PartialEq, Eq)]
pub struct Wide {
    pub step: u8,
}
