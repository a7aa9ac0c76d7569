// The certificate of a file.
ghost use Rattle.std.specs.Prelude.{◌<◌, IsErrOf, MatchResult};
ghost use Rattle.certificate_file.specs.Said.{IsCertificate};
ghost use Rattle.run_inputs.specs.Certs.{EndsEntries, EndsReadingCert};
ghost use Rattle.run_inputs.specs.Inputs.{IsCert};
ghost use Rattle.run_inputs.specs.Begun.{BeginsOne};
ghost use Rattle.run_inputs.specs.Keeping.{KeepsSlots, KeepsStore};

use crate::input::read_input;
use crate::status::{CERT_LIMIT, Long, Status};
use certificate_file::{CertEntry, CertFault, read_cert};
use plan_base::Items;
use plan_io::Store;
use std::alloc::Global;

// The entries of a certificate's bytes.
fn entries_of(alloc: Global, bytes: &[u8]) -> Result<Items<CertEntry>, Status>
    ensures { MatchResult result (IsCertificate bytes.now) (EndsEntries bytes.now) }
{
    match read_cert(alloc, bytes) {
        Ok(entries) => Ok(entries),
        Err(CertFault::NoMemory) => Err(Status::NoMemory),
        Err(CertFault::NotJson) => Err(Status::BadCert(CertFault::NotJson)),
        Err(CertFault::BadForm) => Err(Status::BadCert(CertFault::BadForm)),
    }
}

/// Reads the certificate of the file of that name.
///
/// # Errors
///
/// What ends the run before a line is judged.
pub fn read_entries<S: Store>(
    alloc: Global,
    name: &str,
    store: &mut S,
) -> Result<Items<CertEntry>, Status>
    requires calls { (S.begun store.old).calls < 4 }
    ensures entries { MatchResult result (IsCert (S.shelf store.old) name.now) (EndsReadingCert (S.shelf store.old) name.now) }
    ensures begins { BeginsOne (S.shelf store.old) name.now (S.begun store.old) (S.begun store.new) }
    ensures slots { KeepsSlots (S.left store.old) (S.left store.new) (S.begun store.old).slots }
    ensures store { KeepsStore (S.shelf store.old) (S.shelf store.new) (S.faults store.old) (S.faults store.new) (IsErrOf result Status.ReadFault) }
{
    match read_input(alloc, store, name, CERT_LIMIT, Long::CertBytes) {
        Ok(bytes) => entries_of(alloc, &bytes),
        Err(status) => Err(status),
    }
}
