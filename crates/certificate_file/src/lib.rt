//! Certificates in JSON: what was answered to each solve line, and the numbers that show it.
#![tactic(auto)]

mod laws;
mod reading;
mod writing;

use fractions::Ratio;
pub use laws::{certificates_say_one_list, read_back};
use linear_table::Plan;
use plan_base::Items;
pub use reading::read_cert;
pub use writing::write_cert;

/// The most that a line may be.
pub const LAST_LINE: u64 = 100_000;

/// What is claimed of the table of a solve line.
#[derive(Drop)]
pub enum Claim {
    /// A plan, and the prices that show that none costs less.
    Planned(Plan),
    /// The prices that show that there is no plan, one per good.
    Infeasible(Items<Ratio>),
    /// Nothing.
    Unsettled,
}

/// A claim about the solve line of this number.
#[derive(Drop)]
pub struct CertEntry {
    pub line: u32,
    pub claim: Claim,
}

/// Why a certificate isn't read.
#[derive(Clone, Copy, Debug, PartialEq, Eq)]
pub enum CertFault {
    /// Memory could not be had.
    NoMemory,
    /// The bytes are no JSON in UTF-8 of at most 127 levels.
    NotJson,
    /// The JSON isn't a certificate.
    BadForm,
}
