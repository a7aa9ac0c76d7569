//! Laws of certificates.
ghost use Rattle.std.specs.Prelude.{◌≡◌, ℕ, List, MatchResult};
ghost use Rattle.certificate_file.specs.Said.{HaveLines, IsCertificate};
ghost use Rattle.certificate_file.specs.declared.CertEntry.{CertEntry};

use crate::{CertEntry, CertFault, read_cert, write_cert};
use plan_base::Items;
use std::alloc::Global;

/// A certificate says one list of entries.
pub fn certificates_say_one_list()
    ensures { (bytes : List ℕ) (es fs : List CertEntry) → IsCertificate bytes es → IsCertificate bytes fs → es ≡ fs }
{}

/// What is written is read as the list itself.
///
/// # Errors
///
/// `NoMemory` where memory could not be had.
pub fn read_back(alloc: Global, entries: &[CertEntry]) -> Result<Items<CertEntry>, CertFault>
    requires { HaveLines entries.now }
    ensures { MatchResult result (λ read. read ≡ entries.now) (λ fault. fault ≡ CertFault.NoMemory) }
{
    certificates_say_one_list();
    let Ok(text) = write_cert(alloc, entries) else {
        return Err(CertFault::NoMemory);
    };
    read_cert(alloc, text.as_str().as_bytes())
}
