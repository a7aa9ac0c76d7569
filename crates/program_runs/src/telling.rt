//! What is said of a run on standard error.
use crate::files::whole_file;
use crate::hints::{hint, unread_hint};
use crate::names::dump_name;
use craft_reader::DumpCode;
use plan_base::Text;
use plan_io::HostFault;
use run_inputs::{DUMP_LIMIT, Status};
use std::alloc::Global;
use std::rt::Files;

// The bytes of a dump whose text is no JSON, to tell the line and the column. What isn't kept, as a pipe, isn't read again.
fn faulty_dump<R: Files>(
    rt: &R,
    alloc: Global,
    status: &Status,
    words: &[Text],
) -> Option<Vec<u8>> {
    let Status::BadDump(fault) = status else {
        return None;
    };
    let DumpCode::Json(_) = fault.code else {
        return None;
    };
    whole_file(rt, alloc, dump_name(words)?, DUMP_LIMIT)
}

/// What is said of a run with these words, without those of the certificate of this name, that ended so. None where memory could not
/// be had.
pub fn said_of<R: Files>(
    rt: &R,
    alloc: Global,
    status: &Status,
    words: &[Text],
    cert: Option<&str>,
) -> Option<Text> {
    let dump = faulty_dump(rt, alloc, status, words);
    hint(alloc, status, words, cert, dump.as_deref()).ok()
}

/// What is said of the first call of a store that failed, where the name of its file is known.
pub fn said_of_store(alloc: Global, fault: &Option<HostFault>) -> Option<Text> {
    let fault = fault.as_ref()?;
    let name = fault.name.as_ref()?;
    let cause = &fault.cause;
    let why = format!(in alloc; "{cause}").ok()?;
    unread_hint(alloc, name.as_str(), why.as_str()).ok()
}
