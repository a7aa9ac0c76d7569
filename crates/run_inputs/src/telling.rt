// What is written where a run ends before its script is answered, and behind the answers to a sample's.
ghost use Rattle.std.specs.Prelude.{◌≡◌, ◌≢◌, true};
ghost use Rattle.run_inputs.specs.Early.{Tells, cert_line, long_line};
ghost use Rattle.run_inputs.specs.Told.{TellsSteps, is_answered};
ghost use Rattle.run_inputs.specs.Keeping.{KeepsSink};

use crate::bad_dump::fault_line;
use crate::status::{Long, Status, status_of};
use certificate_file::CertFault;
use craft_reader::DumpFault;
use plan_io::{ScriptEnd, Sink, write_all};
use std::alloc::Global;

fn long_line(long: Long) -> &'static [u8]
    ensures { result.now ≡ long_line long }
{
    match long {
        Long::DumpBytes => b"too long dump bytes\n",
        Long::ScriptBytes => b"too long script bytes\n",
        Long::ScriptLines => b"too long script lines\n",
        Long::CertBytes => b"too long cert bytes\n",
    }
}

fn cert_line(fault: CertFault) -> &'static [u8]
    ensures { result.now ≡ cert_line fault }
{
    match fault {
        CertFault::NoMemory => b"",
        CertFault::NotJson => b"bad cert C2\n",
        CertFault::BadForm => b"bad cert C3\n",
    }
}

// Tells the fault of a dump.
fn tell_fault<K: Sink>(alloc: Global, fault: DumpFault, out: &mut K) -> Status
    ensures tells { Tells (Status.BadDump fault) (K.written out.old) (K.written out.new) result }
    ensures sink { KeepsSink (K.limit out.old) (K.limit out.new) (K.faults out.old) (K.faults out.new) (result ≡ Status.WriteFault) }
{
    let Ok(line) = fault_line(alloc, &fault) else {
        return Status::NoMemory;
    };
    match write_all(out, line.as_str().as_bytes()) {
        Ok(()) => Status::BadDump(fault),
        Err(_) => Status::WriteFault,
    }
}

/// Writes the line of an early end where it has one, and answers how the run ends.
pub fn tell<K: Sink>(alloc: Global, early: Status, out: &mut K) -> Status
    requires { early ≢ Status.WriteFault }
    ensures tells { Tells early (K.written out.old) (K.written out.new) result }
    ensures sink { KeepsSink (K.limit out.old) (K.limit out.new) (K.faults out.old) (K.faults out.new) (result ≡ Status.WriteFault) }
{
    match early {
        Status::BadWords => match write_all(out, b"bad words\n") {
            Ok(()) => Status::BadWords,
            Err(_) => Status::WriteFault,
        },
        Status::TooLong(long) => match write_all(out, long_line(long)) {
            Ok(()) => Status::TooLong(long),
            Err(_) => Status::WriteFault,
        },
        Status::BadDump(fault) => tell_fault(alloc, fault, out),
        Status::BadCert(fault) => match write_all(out, cert_line(fault)) {
            Ok(()) => Status::BadCert(fault),
            Err(_) => Status::WriteFault,
        },
        other => other,
    }
}

/// Whether every line of a script was answered.
pub fn is_answered(end: ScriptEnd) -> bool
    ensures { result ≡ is_answered end }
{
    match end {
        ScriptEnd::Done => true,
        ScriptEnd::SomeRefused => true,
        _ => false,
    }
}

/// Writes the line of the steps behind the answers to all lines, and answers how the run ends.
pub fn tell_steps<K: Sink>(alloc: Global, end: ScriptEnd, taken: u64, out: &mut K) -> Status
    requires { is_answered end ≡ true }
    ensures tells { TellsSteps end taken (K.written out.old) (K.written out.new) result }
    ensures sink { KeepsSink (K.limit out.old) (K.limit out.new) (K.faults out.old) (K.faults out.new) (result ≡ Status.WriteFault) }
{
    let Ok(line) = format!(in alloc; "steps {taken}\n") else {
        return Status::NoMemory;
    };
    match write_all(out, line.as_bytes()) {
        Ok(()) => status_of(end),
        Err(_) => Status::WriteFault,
    }
}
