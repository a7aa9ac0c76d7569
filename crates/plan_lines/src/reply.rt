//! What a line of a script is answered.
use fractions::Ratio;
use game_types::{EffectKind, Effects, Rates};
use linear_table::{Column, SolveAnswer};
use plan_base::{GoodId, Items, Kind, NodeId, Text};

/// Why a line is refused. A code is printed as it is written here.
#[derive(Clone, Copy, Debug, PartialEq, Eq)]
pub enum RefusalCode {
    /// The first word is no command.
    Q1,
    /// The number of words is wrong, or a fixed word is missing.
    Q2,
    /// A word is no number of the kind that stands there.
    Q3,
    /// The line is not UTF-8, or a word is badly quoted.
    Q4,
    /// A word is no object, or not of a kind that stands there.
    Q5,
    /// Nothing has this name, or it is not of the needed kind.
    X1,
    /// All would be as before.
    X2,
    /// An amount or a time is not positive.
    X3,
    /// A list would be too long.
    X4,
    /// There are as many milestones as there may be.
    M1,
    /// It is a milestone already.
    M2,
    /// It is no milestone.
    M3,
    /// Nothing is there to undo.
    H1,
    /// Nothing is there to do again.
    H2,
    /// A batch is open, and the line can't be held in it.
    H3,
    /// No batch is open.
    H4,
    /// The batch is full.
    H5,
    /// No table or row has this name, or the good has no import or surplus.
    P1,
    /// A rate or a price is negative.
    P2,
    /// A table, a list of it or the list of tables would be too long.
    P3,
    /// A temperature is not met.
    P4,
    /// The name is used already.
    P5,
    /// The machine does not do this activity.
    K1,
    /// The machine is fixed to another recipe.
    K2,
    /// The drill has no box for the fluid that the source needs.
    K3,
    /// A rate is past the limits of fractions.
    K4,
    /// The machine gives no power.
    K5,
    /// The machine burns a fuel, and none is named.
    L1,
    /// The machine does not take this fuel.
    L2,
    /// The machine burns no fuel.
    L3,
    /// The machine's energy is not planned.
    L4,
    /// There are more modules than slots.
    U1,
    /// An effect of the module is not allowed.
    U2,
    /// The module is not allowed on the recipe.
    U3,
    /// No machine shares the beacon.
    B1,
    /// The solver met a number past the limits of fractions.
    V1,
    /// The solver's budget is used up.
    V2,
}

/// What a refusal names besides its code.
#[derive(Drop)]
pub enum Detail {
    /// Nothing.
    Bare,
    /// The word at which it comes: an object of a kind, or the name of a table or a row.
    Word { kind: Option<Kind>, name: Text },
    /// A node: a module, a beacon or a fluid.
    Node(NodeId),
    /// A module and the kind of effect that is not allowed.
    Effect { node: NodeId, kind: EffectKind },
    /// A row and the step of its rates.
    Row { label: Text, step: u8 },
}

/// What a row of a plan takes. A figure that is past the limits of fractions is none.
#[derive(Clone, Copy)]
pub struct Figures {
    /// How many machines.
    pub machines: Option<Ratio>,
    /// The whole machines that this takes.
    pub count: Option<Ratio>,
    /// The electric power that they use, in watts.
    pub power: Option<Ratio>,
    /// The power that they take beside that, in watts.
    pub drain: Option<Ratio>,
    /// The power of the beacons that reach them, in watts.
    pub beacons: Option<Ratio>,
    /// Their pollution per minute.
    pub pollution: Option<Ratio>,
}

/// What a line is answered.
#[derive(Drop)]
pub enum Reply {
    /// The line was carried out.
    Ok,
    /// Nothing is said.
    Nothing,
    /// The line is held in the open batch.
    Held,
    /// A node's rank, 0 for a node that is not reached.
    Reach {
        node: NodeId,
        rank: u32,
    },
    /// The reached nodes of a kind, each with its rank.
    List {
        kind: Kind,
        nodes: Items<(NodeId, u32)>,
    },
    /// The nodes that support one, each with its rank and whether it is granted; none for a node that is not reached.
    Why {
        node: NodeId,
        nodes: Items<(NodeId, u32, bool)>,
    },
    /// The groups of a node that are not satisfied, each with whether all of its members are needed.
    Missing {
        node: NodeId,
        reached: bool,
        forbidden: bool,
        groups: Items<(bool, Items<NodeId>)>,
    },
    /// The milestones without which a node is not reached.
    Mask {
        node: NodeId,
        reached: bool,
        milestones: Items<NodeId>,
    },
    /// All milestones.
    Milestones(Items<NodeId>),
    /// How much there is of each thing.
    Summary {
        reached: u32,
        nodes: u32,
        milestones: u32,
        bits: u64,
        tables: u32,
        done: u64,
        undone: u64,
    },
    /// The rates of one row for one craft per second: the effects on it, what it takes, and the power of the beacons of
    /// one machine.
    Rate {
        table: Text,
        label: Text,
        effects: Effects,
        rates: Rates,
        beacons: Ratio,
    },
    /// What the solver says of a table: its rows by their labels, its goods, its columns, and where it gives a plan the
    /// figures of each row and of all rows.
    Solved {
        table: Text,
        labels: Items<Text>,
        goods: Items<GoodId>,
        columns: Items<Column>,
        rows: Items<Figures>,
        total: Figures,
        answer: SolveAnswer,
    },
    /// The line is refused, at a line of its batch where one is named.
    Refused {
        code: RefusalCode,
        detail: Detail,
        at: Option<u32>,
    },
}
