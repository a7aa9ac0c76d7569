//! Items, modules and what is mined, as a dump has them: what they refer to stands by name.
use craft_reader::RawProduct;
use fractions::Ratio;
use game_types::{Bonus, Fuel};
use machine_reader::Section;
use plan_base::{Items, Text};

/// A module: its effects, and the recipes that it may and may not be used for.
#[derive(Drop)]
pub struct RawModule {
    pub bonus: Bonus,
    pub limitation: Items<Text>,
    pub blacklist: Items<Text>,
}

/// An item.
#[derive(Drop)]
pub struct RawItem {
    pub section: Section,
    /// The entity that it is placed as.
    pub place: Option<Text>,
    pub fuel: Option<Fuel>,
    /// The item that is left when it was burnt.
    pub burnt: Option<Text>,
    pub module: Option<RawModule>,
    /// What a rocket brings back that was launched with one; these are items.
    pub launch: Items<RawProduct>,
}

/// What is mined.
#[derive(Drop)]
pub struct RawSource {
    pub section: Section,
    pub drilled: bool,
    pub category: u32,
    pub time: Ratio,
    pub placed: bool,
    pub products: Items<RawProduct>,
    /// The fluid that one operation takes, and how much of it.
    pub fluid: Option<(Text, Ratio)>,
}
