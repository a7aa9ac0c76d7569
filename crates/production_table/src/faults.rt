//! Why a change of a table is refused, or a table has no linear form.
ghost use Rattle.std.specs.Prelude.{◌≡◌};

use plan_base::{Denied, Text};
use table_rows::SetupFault;

/// Why a change of a table is refused, or a table has no linear form.
#[derive(Debug, Drop)]
pub enum TableFault {
    /// P1: there is no such row, or nothing to take away.
    Unknown,
    /// P2: a want or a price is below 0.
    Negative,
    /// P3: there are as many as there may be.
    Full,
    /// P5: a row has this label.
    LabelUsed,
    /// P4, K1 to K3, K5, L1 to L4, U1 to U3, B1.
    Setup(SetupFault),
    /// K4: a step of this row is past the limits of fractions.
    Wide { label: Text, step: u8 },
}

impl From<TableFault> for Denied<TableFault> {
    ghost use Rattle.plan_base.specs.declared.denied.Denied.TheVariants.{Refused};

    ghost from_gives = { λ fault denied. denied ≡ Refused fault };

    fn from(fault: TableFault) -> Self {
        Denied::Refused(fault)
    }
}
