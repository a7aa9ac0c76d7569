// Lines and columns.
ghost use Rattle.std.specs.Prelude.{◌≡◌, ◌^◌, ◌<◌, ◌≤◌, length};
ghost use Rattle.std.specs.List.{after_last, count_by};
ghost use Rattle.program_runs.specs.Places.{is_newline, place_at};

/// Where a byte of a text stands. Lines and columns count from 1, and a column counts bytes.
#[derive(Clone, Copy, Debug, PartialEq, Eq)]
pub struct Place {
    pub line: usize,
    pub column: usize,
    /// The text ends there.
    pub at_end: bool,
}

fn newlines_in(bytes: &[u8]) -> usize
    ensures count { result ≡ count_by is_newline bytes.now }
    ensures few { result ≤ length bytes.now }
{
    bytes.iter().filter(|byte| **byte == b'\n').count()
}

// How many bytes stand behind the last newline.
fn behind_newline(bytes: &[u8]) -> usize
    ensures count { result ≡ length (after_last is_newline bytes.now) }
    ensures few { result ≤ length bytes.now }
{
    bytes
        .iter()
        .rev()
        .take_while(|byte| **byte != b'\n')
        .count()
}

/// The line and the column behind so many bytes of a text.
pub fn place_in(bytes: &[u8], at: usize) -> Place
    requires { length bytes.now < 2 ^ 63 }
    ensures { result ≡ place_at bytes.now at }
{
    let front = &bytes[..at.min(bytes.len())];
    Place {
        line: newlines_in(front) + 1,
        column: behind_newline(front) + 1,
        at_end: bytes.len() <= at,
    }
}
