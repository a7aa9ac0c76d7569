//! Why a change of tables, or a question about them, is refused.
ghost use Rattle.std.specs.Prelude.{◌≡◌};
ghost use Rattle.game_types.specs.Sound.{IsSound};
ghost use Rattle.table_rows.specs.Refusals.{beacon_code, beacon_detail, code_of, detail_of, fuel_code, good_node, machine_code, machine_detail, machine_node, module_code, module_detail, power_code, refused, setup_code, setup_detail};

use crate::faults::SetupFault;
use game_types::{BeaconFault, FuelFault, Game, MachineFault, ModuleFault};
use plan_base::{EntityId, GoodId, Kind, NodeId, Text};
use plan_lines::{Detail, Object, RefusalCode, Reply};
use power_rows::PowerFault;

/// Why a change of tables, or a question about them, is refused.
#[derive(Drop)]
pub enum TableRefusal {
    /// X1: nothing has this name, or it is not of the needed kind.
    Unknown(Object),
    /// P1: no table, or no row of the table, has this name.
    NoName(Text),
    /// P1: the good has no price that could be taken away.
    NoPrice(Object),
    /// P2: a want or a price is below 0.
    Negative,
    /// P3: there are as many as there may be.
    Full,
    /// P5: a table, or a row of the table, has this name.
    NameUsed,
    /// P4, K1 to K3, K5, L1 to L4, U1 to U3, B1: the set-up can't stand in a table.
    Setup(SetupFault),
    /// K4: a step of this row is past the limits of fractions.
    Wide { label: Text, step: u8 },
}

fn machine_code(fault: MachineFault) -> RefusalCode
    ensures { result ≡ machine_code fault }
{
    match fault {
        MachineFault::Category => RefusalCode::K1,
        MachineFault::Fixed => RefusalCode::K2,
        MachineFault::NoBox(_) => RefusalCode::K3,
    }
}

fn power_code(fault: PowerFault) -> RefusalCode
    ensures { result ≡ power_code fault }
{
    match fault {
        PowerFault::Category => RefusalCode::K1,
        PowerFault::NoOutput => RefusalCode::K5,
    }
}

fn fuel_code(fault: FuelFault) -> RefusalCode
    ensures { result ≡ fuel_code fault }
{
    match fault {
        FuelFault::Needed => RefusalCode::L1,
        FuelFault::NotAccepted => RefusalCode::L2,
        FuelFault::NotTaken => RefusalCode::L3,
        FuelFault::NotPlanned => RefusalCode::L4,
    }
}

fn module_code(fault: ModuleFault) -> RefusalCode
    ensures { result ≡ module_code fault }
{
    match fault {
        ModuleFault::TooMany(_) => RefusalCode::U1,
        ModuleFault::Kind(_, _) => RefusalCode::U2,
        ModuleFault::Limited(_) => RefusalCode::U3,
    }
}

fn beacon_code(fault: BeaconFault) -> RefusalCode
    ensures { result ≡ beacon_code fault }
{
    match fault {
        BeaconFault::ShareZero(_) => RefusalCode::B1,
        BeaconFault::TooMany(_) => RefusalCode::U1,
        BeaconFault::Kind(_, _) => RefusalCode::U2,
        BeaconFault::Limited(_) => RefusalCode::U3,
        BeaconFault::Wide(_) => RefusalCode::K4,
    }
}

// The node of a good.
fn good_node(game: &Game, good: GoodId) -> NodeId
    requires { IsSound game.now }
    ensures { result ≡ good_node game.now good }
{
    if good.0 < game.good_count() {
        game.good_node(good)
    } else {
        NodeId(0)
    }
}

// The node of a machine.
fn machine_node(game: &Game, machine: EntityId) -> NodeId
    requires { IsSound game.now }
    ensures { result ≡ machine_node game.now machine }
{
    let shape = game.shape();
    if machine.0 < shape.machines {
        shape.node_of(Kind::Machine, machine.0)
    } else {
        NodeId(0)
    }
}

fn machine_detail(game: &Game, fault: MachineFault) -> Detail
    requires { IsSound game.now }
    ensures { result ≡ machine_detail game.now fault }
{
    match fault {
        MachineFault::NoBox(fluid) => Detail::Node(good_node(game, fluid)),
        MachineFault::Category => Detail::Bare,
        MachineFault::Fixed => Detail::Bare,
    }
}

fn module_detail(game: &Game, fault: ModuleFault) -> Detail
    requires { IsSound game.now }
    ensures { result ≡ module_detail game.now fault }
{
    match fault {
        ModuleFault::TooMany(good) => Detail::Node(good_node(game, good)),
        ModuleFault::Kind(good, kind) => Detail::Effect {
            node: good_node(game, good),
            kind,
        },
        ModuleFault::Limited(good) => Detail::Node(good_node(game, good)),
    }
}

fn beacon_detail(game: &Game, fault: BeaconFault) -> Detail
    requires { IsSound game.now }
    ensures { result ≡ beacon_detail game.now fault }
{
    match fault {
        BeaconFault::ShareZero(machine) => Detail::Node(machine_node(game, machine)),
        BeaconFault::TooMany(good) => Detail::Node(good_node(game, good)),
        BeaconFault::Kind(good, kind) => Detail::Effect {
            node: good_node(game, good),
            kind,
        },
        BeaconFault::Limited(good) => Detail::Node(good_node(game, good)),
        BeaconFault::Wide(_) => Detail::Bare,
    }
}

fn setup_code(fault: SetupFault) -> RefusalCode
    ensures { result ≡ setup_code fault }
{
    match fault {
        SetupFault::Temperature => RefusalCode::P4,
        SetupFault::Machine(fault) => machine_code(fault),
        SetupFault::Power(fault) => power_code(fault),
        SetupFault::Lab(_) => RefusalCode::K1,
        SetupFault::Fuel(fault) => fuel_code(fault),
        SetupFault::Modules(fault) => module_code(fault),
        SetupFault::Beacons(fault) => beacon_code(fault),
    }
}

fn setup_detail(game: &Game, fault: SetupFault) -> Detail
    requires { IsSound game.now }
    ensures { result ≡ setup_detail game.now fault }
{
    match fault {
        SetupFault::Temperature => Detail::Bare,
        SetupFault::Machine(fault) => machine_detail(game, fault),
        SetupFault::Power(_) => Detail::Bare,
        SetupFault::Lab(_) => Detail::Bare,
        SetupFault::Fuel(_) => Detail::Bare,
        SetupFault::Modules(fault) => module_detail(game, fault),
        SetupFault::Beacons(fault) => beacon_detail(game, fault),
    }
}

/// The code of a refusal.
pub fn code_of(refusal: &TableRefusal) -> RefusalCode
    ensures { result ≡ code_of refusal.now }
{
    match refusal {
        TableRefusal::Unknown(_) => RefusalCode::X1,
        TableRefusal::NoName(_) => RefusalCode::P1,
        TableRefusal::NoPrice(_) => RefusalCode::P1,
        TableRefusal::Negative => RefusalCode::P2,
        TableRefusal::Full => RefusalCode::P3,
        TableRefusal::NameUsed => RefusalCode::P5,
        TableRefusal::Setup(fault) => setup_code(*fault),
        TableRefusal::Wide { .. } => RefusalCode::K4,
    }
}

/// What is told of a refusal beside its code.
pub fn detail_of(game: &Game, refusal: TableRefusal) -> Detail
    requires { IsSound game.now }
    ensures { result ≡ detail_of game.now refusal }
{
    match refusal {
        TableRefusal::Unknown(object) => Detail::Word {
            kind: Some(object.kind),
            name: object.name,
        },
        TableRefusal::NoName(name) => Detail::Word { kind: None, name },
        TableRefusal::NoPrice(object) => Detail::Word {
            kind: Some(object.kind),
            name: object.name,
        },
        TableRefusal::Negative => Detail::Bare,
        TableRefusal::Full => Detail::Bare,
        TableRefusal::NameUsed => Detail::Bare,
        TableRefusal::Setup(fault) => setup_detail(game, fault),
        TableRefusal::Wide { label, step } => Detail::Row { label, step },
    }
}

/// The reply of a refused line, at a line of its batch where one is named.
pub fn refused(game: &Game, refusal: TableRefusal, at: Option<u32>) -> Reply
    requires { IsSound game.now }
    ensures { result ≡ refused game.now refusal at }
{
    let code = code_of(&refusal);
    Reply::Refused {
        code,
        detail: detail_of(game, refusal),
        at,
    }
}
