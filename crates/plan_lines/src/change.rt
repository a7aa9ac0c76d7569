//! Edits of the game, its marks, its milestones and the tables, as a script writes them.
use fractions::Ratio;
use plan_base::{Items, Kind, Text};

/// An object as a script names it, such as `item:iron-plate`.
#[derive(Drop)]
pub struct Object {
    pub kind: Kind,
    pub name: Text,
}

/// One thing that a row names besides its activity and its machine.
#[derive(Drop)]
pub enum RowPart {
    /// What the machine burns.
    Fuel(Object),
    /// A module in the machine, so many times.
    Module(Object, u32),
    /// A beacon, how many of them reach the machine, and how many machines share each.
    Beacon {
        machine: Object,
        count: u32,
        share: u32,
    },
    /// A module in each of the beacons that were named last, so many times.
    In(Object, u32),
    /// A fluid that is taken before others where several fit.
    At(Object),
}

/// One edit. The fields of a variant are the words of its line in order; `drop` and the price `off` are `None`.
#[derive(Drop)]
pub enum Change {
    Grant(Object),
    Revoke(Object),
    Forbid(Object),
    Permit(Object),
    Milestone(Object),
    Unmilestone(Object),
    Ingredient {
        recipe: Object,
        good: Object,
        amount: Option<Ratio>,
    },
    Product {
        recipe: Object,
        good: Object,
        amount: Option<Ratio>,
    },
    Unlock {
        tech: Object,
        recipe: Object,
        on: bool,
    },
    Time {
        recipe: Object,
        seconds: Ratio,
    },
    Enabled {
        recipe: Object,
        on: bool,
    },
    Table(Text),
    Untable(Text),
    Row {
        table: Text,
        label: Text,
        activity: Object,
        machine: Object,
        parts: Items<RowPart>,
    },
    Unrow {
        table: Text,
        label: Text,
    },
    Price {
        table: Text,
        label: Text,
        price: Ratio,
    },
    Want {
        table: Text,
        good: Object,
        amount: Ratio,
    },
    Import {
        table: Text,
        good: Object,
        price: Option<Ratio>,
    },
    Surplus {
        table: Text,
        good: Object,
        price: Option<Ratio>,
    },
    Power {
        table: Text,
        on: bool,
    },
}
