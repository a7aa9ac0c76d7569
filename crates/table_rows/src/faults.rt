//! Why a set-up can't stand in a table, and why a row has no column.
ghost use Rattle.std.specs.Prelude.{◌≡◌};

use game_types::{BeaconFault, FuelFault, MachineFault, ModuleFault, Wide};
use power_rows::PowerFault;
use research_rows::LabFault;
use std::alloc::AllocFailed;

/// Why a set-up can't stand in a table.
#[derive(Clone, Copy, Debug)]
pub enum SetupFault {
    /// P4: an ingredient has no fit, or no fluid is named that a machine takes in.
    Temperature,
    /// K1 to K3.
    Machine(MachineFault),
    /// K1 and K5.
    Power(PowerFault),
    /// K1.
    Lab(LabFault),
    /// L1 to L4.
    Fuel(FuelFault),
    /// U1 to U3.
    Modules(ModuleFault),
    /// B1, and U1 to U3 of a beacon's modules.
    Beacons(BeaconFault),
}

/// Why a row has no column.
#[derive(Clone, Copy, Debug)]
pub enum RowFault {
    Wide(Wide),
    NoMemory,
}

impl From<Wide> for RowFault {
    ghost use Rattle.table_rows.specs.declared.faults.RowFault.TheVariants.{Wide as WideRow};

    ghost from_gives = { λ wide fault. fault ≡ WideRow wide };

    fn from(wide: Wide) -> RowFault {
        RowFault::Wide(wide)
    }
}

impl<T: Drop> From<AllocFailed<T>> for RowFault {
    ghost use Rattle.table_rows.specs.declared.faults.RowFault.TheVariants.{NoMemory as NoMemoryRow};

    ghost from_gives = { λ _ fault. fault ≡ NoMemoryRow };

    fn from(_: AllocFailed<T>) -> RowFault {
        RowFault::NoMemory
    }
}
