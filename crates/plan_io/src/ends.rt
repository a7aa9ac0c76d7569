//! How the lines of a script end.

/// How the lines of a script ended.
#[derive(Clone, Copy, Debug, PartialEq, Eq)]
pub enum ScriptEnd {
    /// Every line was answered, and no reply is a refusal.
    Done,
    /// Every line was answered, and some reply is a refusal.
    SomeRefused,
    /// The script has too many lines, and none was answered.
    TooManyLines,
    /// The report could not be written.
    WriteFault,
    /// Memory could not be had.
    NoMemory,
}
