//! The words of refusals.
ghost use Rattle.std.specs.Prelude.{◌≡◌};
ghost use Rattle.plan_report.specs.Codes.{code_word};

use plan_lines::RefusalCode;

/// The code as it is printed.
pub fn code_word(code: RefusalCode) -> &'static str
    ensures { result.now ≡ code_word code }
{
    match code {
        RefusalCode::Q1 => "Q1",
        RefusalCode::Q2 => "Q2",
        RefusalCode::Q3 => "Q3",
        RefusalCode::Q4 => "Q4",
        RefusalCode::Q5 => "Q5",
        RefusalCode::X1 => "X1",
        RefusalCode::X2 => "X2",
        RefusalCode::X3 => "X3",
        RefusalCode::X4 => "X4",
        RefusalCode::M1 => "M1",
        RefusalCode::M2 => "M2",
        RefusalCode::M3 => "M3",
        RefusalCode::H1 => "H1",
        RefusalCode::H2 => "H2",
        RefusalCode::H3 => "H3",
        RefusalCode::H4 => "H4",
        RefusalCode::H5 => "H5",
        RefusalCode::P1 => "P1",
        RefusalCode::P2 => "P2",
        RefusalCode::P3 => "P3",
        RefusalCode::P4 => "P4",
        RefusalCode::P5 => "P5",
        RefusalCode::K1 => "K1",
        RefusalCode::K2 => "K2",
        RefusalCode::K3 => "K3",
        RefusalCode::K4 => "K4",
        RefusalCode::K5 => "K5",
        RefusalCode::L1 => "L1",
        RefusalCode::L2 => "L2",
        RefusalCode::L3 => "L3",
        RefusalCode::L4 => "L4",
        RefusalCode::U1 => "U1",
        RefusalCode::U2 => "U2",
        RefusalCode::U3 => "U3",
        RefusalCode::B1 => "B1",
        RefusalCode::V1 => "V1",
        RefusalCode::V2 => "V2",
    }
}
