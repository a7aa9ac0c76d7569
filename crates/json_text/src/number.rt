ghost use Rattle.std.specs.Prelude.{◌≡◌};
ghost use Rattle.json_text.specs.Lexing.{number_next as next_phase, is_whole as phase_is_whole};

/// Where the reading of a numeral stands.
#[derive(Clone, Copy)]
pub enum Phase {
    /// Behind its sign.
    Minus,
    /// Behind a single zero.
    Zero,
    /// In its whole part.
    Whole,
    /// Behind the point.
    Dot,
    Fraction,
    /// Behind `e` or `E`.
    Mark,
    /// Behind the exponent's sign.
    Sign,
    Exponent,
}

/// The phase behind one byte more; none where no numeral goes on so.
#[inline(always)]
pub fn number_next(phase: Phase, byte: u8) -> Option<Phase>
    ensures { result ≡ next_phase phase byte }
{
    match phase {
        Phase::Minus => match byte {
            b'0' => Some(Phase::Zero),
            b'1'..=b'9' => Some(Phase::Whole),
            _ => None,
        },
        Phase::Zero => match byte {
            b'.' => Some(Phase::Dot),
            b'e' | b'E' => Some(Phase::Mark),
            _ => None,
        },
        Phase::Whole => match byte {
            b'0'..=b'9' => Some(Phase::Whole),
            b'.' => Some(Phase::Dot),
            b'e' | b'E' => Some(Phase::Mark),
            _ => None,
        },
        Phase::Dot => match byte {
            b'0'..=b'9' => Some(Phase::Fraction),
            _ => None,
        },
        Phase::Fraction => match byte {
            b'0'..=b'9' => Some(Phase::Fraction),
            b'e' | b'E' => Some(Phase::Mark),
            _ => None,
        },
        Phase::Mark => match byte {
            b'0'..=b'9' => Some(Phase::Exponent),
            b'+' | b'-' => Some(Phase::Sign),
            _ => None,
        },
        Phase::Sign | Phase::Exponent => match byte {
            b'0'..=b'9' => Some(Phase::Exponent),
            _ => None,
        },
    }
}

/// Whether a numeral may end there.
#[inline(always)]
pub fn is_whole(phase: Phase) -> bool
    ensures { result ≡ phase_is_whole phase }
{
    match phase {
        Phase::Zero | Phase::Whole | Phase::Fraction | Phase::Exponent => true,
        Phase::Minus | Phase::Dot | Phase::Mark | Phase::Sign => false,
    }
}
