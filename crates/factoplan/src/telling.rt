//! What is said of a run on standard error.

use plan_base::Text;
use planner_cli::Status;
use program_runs::said_of;
use run_inputs::{PlainWords, plain_words};
use std::alloc::Global;
use std::rt::Files;

/// What is said of a run that ended so, by its words and by what is to be said of a file that could not be read. None where memory
/// could not be had.
pub fn said<R: Files>(
    rt: &R,
    alloc: Global,
    status: &Status,
    words: &[Text],
    unread: Option<Text>,
) -> Option<Text> {
    if let Status::ReadFault = status {
        if unread.is_some() {
            return unread;
        }
    }
    let PlainWords { words, cert } = plain_words(alloc, words).ok()?;
    let cert = cert.as_ref().map(|name| name.as_str());
    said_of(rt, alloc, status, &words, cert)
}
