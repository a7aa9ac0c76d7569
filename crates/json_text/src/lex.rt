ghost use Rattle.std.specs.Prelude.{◌≡◌};
ghost use Rattle.json_text.specs.Lexing.{bad_byte, lead, between, ranged, escape, hex_of, if_hex, expect, lex_next};
ghost use Rattle.json_text.specs.declared.lex.Lex.TheVariants.{Between, Hex0, Hex1, Hex2, Hex3, Low0, Low1, Low2};
ghost use Rattle.json_text.specs.declared.lex.LexGo.TheVariants.{Goes};

use crate::fault::JsonCode;

/// Where the reading of a string stands, behind one of its bytes.
#[derive(Clone, Copy)]
pub enum Lex {
    /// Between two characters.
    Between,
    /// One byte of a character is still to come, two, or three.
    Tail1,
    Tail2,
    Tail3,
    /// Behind these first bytes of characters, which allow fewer second bytes.
    BehindE0,
    BehindEd,
    BehindF0,
    BehindF4,
    /// Behind a backslash.
    Escape,
    /// Behind `\u`, and behind one to three digits, with their value.
    Hex0,
    Hex1(u8),
    Hex2(u16),
    Hex3(u32),
    /// Behind the first of two surrogates, of which the second must follow; and behind its backslash.
    Backslash(u32),
    LetterU(u32),
    /// Behind its `\u`, and behind one to three digits.
    Low0(u32),
    Low1(u32),
    Low2(u32, u16),
    Low3(u32, u32),
}

/// What a byte does in a string.
#[derive(Clone, Copy)]
pub enum LexGo {
    Goes(Lex),
    /// The string ends.
    Ends,
    Bad(JsonCode),
}

/// A byte that can't stand there, behind a whole character.
fn bad_byte(byte: u8) -> LexGo
    ensures { result ≡ bad_byte byte }
{
    if byte < 128 || (194 <= byte && byte <= 244) {
        LexGo::Bad(JsonCode::NotJson)
    } else {
        LexGo::Bad(JsonCode::NotUtf8)
    }
}

/// The first byte of a character that isn't ASCII.
fn lead(byte: u8) -> LexGo
    ensures { result ≡ lead byte }
{
    if byte < 194 {
        LexGo::Bad(JsonCode::NotUtf8)
    } else if byte < 224 {
        LexGo::Goes(Lex::Tail1)
    } else if byte == 224 {
        LexGo::Goes(Lex::BehindE0)
    } else if byte == 237 {
        LexGo::Goes(Lex::BehindEd)
    } else if byte < 240 {
        LexGo::Goes(Lex::Tail2)
    } else if byte == 240 {
        LexGo::Goes(Lex::BehindF0)
    } else if byte < 244 {
        LexGo::Goes(Lex::Tail3)
    } else if byte == 244 {
        LexGo::Goes(Lex::BehindF4)
    } else {
        LexGo::Bad(JsonCode::NotUtf8)
    }
}

fn between(byte: u8) -> LexGo
    ensures { result ≡ between byte }
{
    if byte == b'"' {
        LexGo::Ends
    } else if byte == b'\\' {
        LexGo::Goes(Lex::Escape)
    } else if byte < 32 {
        LexGo::Bad(JsonCode::NotJson)
    } else if byte < 128 {
        LexGo::Goes(Lex::Between)
    } else {
        lead(byte)
    }
}

/// A further byte of a character.
fn ranged(low: u8, high: u8, next: Lex, byte: u8) -> LexGo
    ensures { result ≡ ranged low high next byte }
{
    if low <= byte && byte <= high {
        LexGo::Goes(next)
    } else {
        LexGo::Bad(JsonCode::NotUtf8)
    }
}

fn escape(byte: u8) -> LexGo
    ensures { result ≡ escape byte }
{
    if byte == b'u' {
        LexGo::Goes(Lex::Hex0)
    } else if byte == b'"'
        || byte == b'\\'
        || byte == b'/'
        || byte == b'b'
        || byte == b'f'
        || byte == b'n'
        || byte == b'r'
        || byte == b't'
    {
        LexGo::Goes(Lex::Between)
    } else {
        bad_byte(byte)
    }
}

/// The value of a hexadecimal digit.
pub fn hex_of(byte: u8) -> Option<u8>
    ensures { result ≡ hex_of byte }
{
    match byte {
        b'0'..=b'9' => Some(byte - 48),
        b'A'..=b'F' => Some(byte - 55),
        b'a'..=b'f' => Some(byte - 87),
        _ => None,
    }
}

/// A byte that must be this one.
fn expect(wanted: u8, next: Lex, byte: u8) -> LexGo
    ensures { result ≡ expect wanted next byte }
{
    if byte == wanted {
        LexGo::Goes(next)
    } else {
        bad_byte(byte)
    }
}

fn first_hex(byte: u8) -> LexGo
    ensures { result ≡ lex_next Hex0 byte }
{
    match hex_of(byte) {
        Some(digit) => LexGo::Goes(Lex::Hex1(digit)),
        None => bad_byte(byte),
    }
}

fn second_hex(value: u8, byte: u8) -> LexGo
    ensures { result ≡ lex_next (Hex1 value) byte }
{
    match hex_of(byte) {
        Some(digit) => {
            let value = 16 * value as u16 + digit as u16;
            if 0xDC <= value && value <= 0xDF {
                LexGo::Bad(JsonCode::NotJson)
            } else {
                LexGo::Goes(Lex::Hex2(value))
            }
        }
        None => bad_byte(byte),
    }
}

fn third_hex(value: u16, byte: u8) -> LexGo
    ensures { result ≡ lex_next (Hex2 value) byte }
{
    match hex_of(byte) {
        Some(digit) => LexGo::Goes(Lex::Hex3(16 * value as u32 + digit as u32)),
        None => bad_byte(byte),
    }
}

fn last_hex(value: u32, byte: u8) -> LexGo
    ensures { result ≡ lex_next (Hex3 value) byte }
{
    match hex_of(byte) {
        Some(digit) => {
            let value = 16 * value as u64 + digit as u64;
            if 0xD800 <= value && value < 0xDC00 {
                LexGo::Goes(Lex::Backslash(value as u32))
            } else {
                LexGo::Goes(Lex::Between)
            }
        }
        None => bad_byte(byte),
    }
}

fn low_first(high: u32, byte: u8) -> LexGo
    ensures { result ≡ lex_next (Low0 high) byte }
{
    match hex_of(byte) {
        Some(digit) => {
            if digit == 13 {
                LexGo::Goes(Lex::Low1(high))
            } else {
                LexGo::Bad(JsonCode::NotJson)
            }
        }
        None => bad_byte(byte),
    }
}

fn low_second(high: u32, byte: u8) -> LexGo
    ensures { result ≡ lex_next (Low1 high) byte }
{
    match hex_of(byte) {
        Some(digit) => {
            let value = 16 * 13 + digit as u16;
            if 0xDC <= value && value <= 0xDF {
                LexGo::Goes(Lex::Low2(high, value))
            } else {
                LexGo::Bad(JsonCode::NotJson)
            }
        }
        None => bad_byte(byte),
    }
}

fn low_third(high: u32, value: u16, byte: u8) -> LexGo
    ensures { result ≡ lex_next (Low2 high value) byte }
{
    match hex_of(byte) {
        Some(digit) => LexGo::Goes(Lex::Low3(high, 16 * value as u32 + digit as u32)),
        None => bad_byte(byte),
    }
}

fn low_last(byte: u8) -> LexGo
    ensures { result ≡ if_hex byte (Goes Between) }
{
    match hex_of(byte) {
        Some(_) => LexGo::Goes(Lex::Between),
        None => bad_byte(byte),
    }
}

/// What a byte does in a string.
pub fn lex_next(lex: Lex, byte: u8) -> LexGo
    ensures { result ≡ lex_next lex byte }
{
    match lex {
        Lex::Between => between(byte),
        Lex::Tail1 => ranged(128, 191, Lex::Between, byte),
        Lex::Tail2 => ranged(128, 191, Lex::Tail1, byte),
        Lex::Tail3 => ranged(128, 191, Lex::Tail2, byte),
        Lex::BehindE0 => ranged(160, 191, Lex::Tail1, byte),
        Lex::BehindEd => ranged(128, 159, Lex::Tail1, byte),
        Lex::BehindF0 => ranged(144, 191, Lex::Tail2, byte),
        Lex::BehindF4 => ranged(128, 143, Lex::Tail2, byte),
        Lex::Escape => escape(byte),
        Lex::Hex0 => first_hex(byte),
        Lex::Hex1(value) => second_hex(value, byte),
        Lex::Hex2(value) => third_hex(value, byte),
        Lex::Hex3(value) => last_hex(value, byte),
        Lex::Backslash(high) => expect(b'\\', Lex::LetterU(high), byte),
        Lex::LetterU(high) => expect(b'u', Lex::Low0(high), byte),
        Lex::Low0(high) => low_first(high, byte),
        Lex::Low1(high) => low_second(high, byte),
        Lex::Low2(high, value) => low_third(high, value, byte),
        Lex::Low3(_, _) => low_last(byte),
    }
}
