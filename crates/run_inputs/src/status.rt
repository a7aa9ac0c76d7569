// How a run ends, and the limits of what it reads.
ghost use Rattle.std.specs.Prelude.{◌≡◌};
ghost use Rattle.run_inputs.specs.Told.{status_of};
ghost use Rattle.run_inputs.specs.Exit.{exit_of};

use certificate_file::CertFault;
use craft_reader::DumpFault;
use plan_io::ScriptEnd;

/// How a run ended.
#[derive(Debug, Drop)]
pub enum Status {
    /// Every line was answered, and no reply is a refusal; where a certificate was checked, it proves each table that is solved.
    Done,
    /// Every line was answered, and some reply is a refusal or, where a certificate was checked, some table is not proved.
    SomeRefused,
    /// The words are not those of a run.
    BadWords,
    /// The dump is refused; it holds the first fault, whose code is never `DumpCode::NoMemory`.
    BadDump(DumpFault),
    /// A file could not be read.
    ReadFault,
    /// The report could not be written.
    WriteFault,
    /// Memory could not be had.
    NoMemory,
    /// A file or the script's lines pass their limit.
    TooLong(Long),
    /// The certificate is refused; never for want of memory.
    BadCert(CertFault),
}

/// What was too long.
#[derive(Clone, Copy, Debug, PartialEq, Eq)]
pub enum Long {
    DumpBytes,
    ScriptBytes,
    ScriptLines,
    CertBytes,
}

/// The most bytes that a dump may have.
pub const DUMP_LIMIT: usize = 268_435_456;

/// The most bytes that a script may have.
pub const SCRIPT_LIMIT: usize = 16_777_216;

/// The most bytes that a certificate may have.
pub const CERT_LIMIT: usize = 268_435_456;

impl Status {
    /// The number that the program ends with.
    pub fn exit(&self) -> u8
        ensures { result ≡ exit_of self.now }
    {
        match self {
            Status::Done => 0,
            Status::SomeRefused => 1,
            Status::BadWords => 2,
            Status::BadDump(_) => 3,
            Status::ReadFault => 4,
            Status::WriteFault => 5,
            Status::NoMemory => 6,
            Status::TooLong(_) => 7,
            Status::BadCert(_) => 9,
        }
    }
}

/// The status of a run whose script ended so.
pub fn status_of(end: ScriptEnd) -> Status
    ensures { result ≡ status_of end }
{
    match end {
        ScriptEnd::Done => Status::Done,
        ScriptEnd::SomeRefused => Status::SomeRefused,
        ScriptEnd::TooManyLines => Status::TooLong(Long::ScriptLines),
        ScriptEnd::WriteFault => Status::WriteFault,
        ScriptEnd::NoMemory => Status::NoMemory,
    }
}
