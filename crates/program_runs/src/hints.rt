// The line that is said of a run.
ghost use Rattle.std.specs.Prelude.{◌≡◌, IfOk, None, Some, codes, option_copied, option_map, string_bytes};
ghost use Rattle.program_runs.specs.Hints.{cert_text, hint_line, hint_of, long_hint, name_part};

use crate::faults::fault_text;
use crate::names::{dump_name, script_name};
use certificate_file::CertFault;
use plan_base::{NoMemory, Text};
use plan_report::printed_word;
use run_inputs::{Long, Status};
use std::alloc::{AllocError, Global};

// The name of a file and a colon, or nothing where there is no name.
fn name_part(alloc: Global, name: Option<&str>) -> Result<String, AllocError>
    ensures { IfOk result (λ text. string_bytes text ≡ name_part (option_map (λ name. name.now) name.entry)) }
{
    match name {
        Some(name) => {
            let word = printed_word(alloc, name)?;
            format!(in alloc; "{word}: ")
        }
        None => Ok(String::new(alloc)),
    }
}

/// A line of the program: the file that it is about, where there is one, and what is wrong.
#[tactic(auto, unfolding(crate::specs::Hints::hint_line))]
pub fn hint_line(alloc: Global, file: Option<&str>, what: &str) -> Result<Text, NoMemory>
    ensures { IfOk result (λ text. text ≡ hint_line (option_map (λ name. name.now) file.entry) what.now) }
{
    let name = name_part(alloc, file)?;
    let line = format!(in alloc; "factoplan: {name}{what}\n")?;
    Ok(Text::from_string(line))
}

fn long_hint(
    alloc: Global,
    long: Long,
    words: &[Text],
    cert: Option<&str>,
) -> Result<Text, NoMemory>
    ensures { IfOk result (λ text. text ≡ long_hint long words.now (option_map (λ name. name.now) cert.entry)) }
{
    match long {
        Long::DumpBytes => hint_line(
            alloc,
            dump_name(words),
            "the dump has more than 268,435,456 bytes",
        ),
        Long::ScriptBytes => hint_line(
            alloc,
            script_name(words),
            "the script has more than 16,777,216 bytes",
        ),
        Long::ScriptLines => hint_line(
            alloc,
            script_name(words),
            "the script has more than 100,000 lines",
        ),
        Long::CertBytes => hint_line(
            alloc,
            cert,
            "the certificate has more than 268,435,456 bytes",
        ),
    }
}

// What is wrong with a certificate.
fn cert_text(fault: CertFault) -> &'static str
    ensures { result.now ≡ cert_text fault }
{
    match fault {
        CertFault::NoMemory => "no memory is left",
        CertFault::NotJson => "the certificate is no JSON in UTF-8 of at most 127 levels",
        CertFault::BadForm => "the JSON is no certificate of version 1",
    }
}

/// What is said of a run with these words, and with the certificate of this name where there is one, that ended so: one line, or
/// nothing where every line was answered. The words are those without the option of the certificate. The bytes of the dump, where they
/// are given, tell the line and the column of a fault.
///
/// # Errors
///
/// `NoMemory` where memory could not be had.
pub fn hint(
    alloc: Global,
    status: &Status,
    words: &[Text],
    cert: Option<&str>,
    dump: Option<&[u8]>,
) -> Result<Text, NoMemory>
    ensures { IfOk result (λ text. text ≡ hint_of status.now words.now (option_map (λ name. name.now) cert.entry) (option_copied dump.entry)) }
{
    match status {
        Status::Done | Status::SomeRefused => Ok(Text::from_string(String::new(alloc))),
        Status::BadWords => hint_line(
            alloc,
            None,
            "usage: factoplan run DUMP SCRIPT, prove DUMP SCRIPT, check DUMP SCRIPT --cert FILE, or sample NUMBER SIZE",
        ),
        Status::BadDump(fault) => {
            let what = fault_text(alloc, fault, dump)?;
            hint_line(alloc, dump_name(words), what.as_str())
        }
        Status::ReadFault => hint_line(alloc, None, "a file could not be read"),
        Status::WriteFault => hint_line(alloc, None, "the report could not be written"),
        Status::NoMemory => hint_line(alloc, None, "no memory is left"),
        Status::TooLong(long) => long_hint(alloc, *long, words, cert),
        Status::BadCert(fault) => hint_line(alloc, cert, cert_text(*fault)),
    }
}

/// What is said of a file that can't be read, and why.
///
/// # Errors
///
/// `NoMemory` where memory could not be had.
pub fn unread_hint(alloc: Global, name: &str, why: &str) -> Result<Text, NoMemory>
    ensures { IfOk result (λ text. text ≡ hint_line (Some name.now) why.now) }
{
    hint_line(alloc, Some(name), why)
}
