//! The words of a run and what they ask for, what it reads before the first line of its script is answered, and how it ends where it gets no further.
#![tactic(auto)]

mod bad_dump;
mod cert_option;
mod certs;
mod input;
mod load;
mod prepare;
mod status;
mod telling;
mod words;

pub use cert_option::{PlainWords, plain_words};
pub use certs::read_entries;
pub use prepare::{Ready, make_ready, read_files};
pub use status::{CERT_LIMIT, DUMP_LIMIT, Long, SCRIPT_LIMIT, Status, status_of};
pub use telling::{is_answered, tell, tell_steps};
pub use words::{Asked, FileMode, RunWords, WordsFault, read_words};
