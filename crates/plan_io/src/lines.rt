//! The lines of a script.
ghost use Rattle.std.specs.Prelude.{◌≡◌, ◌<◌, ◌≤◌, ◌+◌, ◌∷◌, ◌==◌, [], IfNone, IfSome, false, true, length, position};
ghost use Rattle.plan_io.specs.Lines.{cut_lines, lines_of, without_return};

/// The most lines that a script may have.
pub const LINE_LIMIT: usize = 100_000;

/// A line of a script: its number, which begins at 1, and its bytes without a carriage return at their end.
#[derive(Clone, Copy)]
pub struct Line<'a> {
    pub number: u32,
    pub bytes: &'a [u8],
}

/// The lines of a script, one after another: how many came before, and what is left of the script. All together they are no more than a
/// script may have.
#[derive(Drop)]
pub struct Lines<'a> {
    count: u32,
    rest: &'a [u8],
    ghost few: { count + length (lines_of rest.now) ≤ 100_000 },
}

impl<'a> Lines<'a> {
    /// The lines of a script behind so many of others.
    pub fn behind(count: u32, script: &'a [u8]) -> Lines<'a>
        requires { count + length (lines_of script.now) ≤ 100_000 }
        ensures count { result.count ≡ count }
        ensures rest { result.rest.now ≡ script.now }
    {
        Lines {
            count,
            rest: script,
        }
    }

    /// The next line, where there is one.
    pub fn next(&mut self) -> Option<Line<'a>>
        ensures none { IfNone result (lines_of self.old.rest.now ≡ []) }
        ensures line { IfSome result (λ line. lines_of self.old.rest.now ≡ line.bytes.now ∷ lines_of self.new.rest.now) }
        ensures number { IfSome result (λ line. (line.number ≡ self.old.count + 1) × (self.new.count ≡ self.old.count + 1)) }
        ensures shorter { IfSome result (λ line. length self.new.rest.now < length self.old.rest.now) }
    {
        if self.rest.is_empty() {
            return None;
        }
        let (line, more) = split_line(self.rest);
        let number = self.count + 1;
        self.rest = more;
        self.count = number;
        Some(Line {
            number,
            bytes: trim_return(line),
        })
    }
}

fn newline_at(bytes: &[u8]) -> Option<usize>
    ensures { result ≡ position (λ byte. byte == 10) bytes.now }
{
    bytes.iter().position(|byte| *byte == b'\n')
}

/// The bytes of the first line, and what follows its newline.
pub fn split_line(bytes: &[u8]) -> (&[u8], &[u8])
    requires { 0 < length bytes.now }
    ensures lines { cut_lines bytes.now ≡ result.0.now ∷ cut_lines result.1.now }
    ensures shorter { length result.1.now < length bytes.now }
{
    match newline_at(bytes) {
        Some(end) => (&bytes[..end], &bytes[end + 1..]),
        None => (bytes, &[]),
    }
}

/// The line without one carriage return at its end.
pub fn trim_return(line: &[u8]) -> &[u8]
    ensures { result.now ≡ without_return line.now }
{
    match line.last() {
        Some(b'\r') => &line[..line.len() - 1],
        _ => line,
    }
}

/// How many lines there are.
pub fn line_count(script: &[u8]) -> usize
    ensures { result ≡ length (lines_of script.now) }
{
    let mut rest = script;
    let mut count = 0;
    while !rest.is_empty() {
        rest = split_line(rest).1;
        count += 1;
    }
    count
}

/// Whether a script has more lines than it may.
pub fn has_many_lines(script: &[u8]) -> bool
    ensures many { result ≡ true → 100_000 < length (lines_of script.now) }
    ensures few { result ≡ false → length (lines_of script.now) ≤ 100_000 }
{
    line_count(script) > LINE_LIMIT
}
