ghost use Rattle.std.specs.Prelude.{◌≡◌, ◌++◌, ◌+◌, ◌<◌, length, slice_index, slice_range, IfOk, IfErr, true, false};
ghost use Rattle.std.specs.Char.{IsScalar};
ghost use Rattle.std.specs.Str.{IsUtf8, is_utf8};
ghost use Rattle.json_text.specs.Text.{short_value as short_letter};
ghost use Rattle.json_text.specs.Lexing.{LexRuns, lex_end, lex_emits, lexed, is_hex, is_high, more};
ghost use Rattle.json_text.specs.Lending.{IsUnmarked, HasEscape, IsStringAt};
ghost use Rattle.json_text.specs.Emitting.{emitted_bytes, CanEmit, IsHighHalf, IsLowHalf};
ghost use Rattle.json_text.specs.SpanSeen.{text_seen};
ghost use Rattle.json_text.specs.declared.fault.JsonCode.TheVariants.{NoMemory};
ghost use Rattle.json_text.specs.declared.lex.Lex.TheVariants.{Between, Hex3, Low3};

use crate::fault::{JsonFault, no_memory};
use crate::lex::{Lex, LexGo, hex_of, lex_next};
use crate::span::SpanText;
use plan_base::Text;
use std::alloc::Global;
use std::str::from_utf8;

/// What a byte adds to the text that a string stands for.
#[derive(Clone, Copy)]
pub enum Emitted {
    Nothing,
    Byte(u8),
    Char(char),
}

/// What an escape of one letter stands for.
fn short_value(byte: u8) -> u8
    ensures { result ≡ short_letter byte }
{
    if byte == b'b' {
        8
    } else if byte == b'f' {
        12
    } else if byte == b'n' {
        10
    } else if byte == b'r' {
        13
    } else if byte == b't' {
        9
    } else {
        byte
    }
}

/// The character of that code.
fn character(code: u32) -> char
    requires { IsScalar code }
    ensures { result ≡ code }
{
    match char::from_u32(code) {
        Some(c) => c,
        None => unreachable!(),
    }
}

/// The last digit of an escape of one character.
fn last_emitted(value: u32, byte: u8) -> Emitted
    requires hex { is_hex byte ≡ true }
    requires scalar { is_high (more value byte) ≡ false → IsScalar (more value byte) }
    ensures { emitted_bytes result ≡ lex_emits (Hex3 value) byte }
{
    match hex_of(byte) {
        Some(digit) => {
            let code = 16 * value as u64 + digit as u64;
            if 0xD800 <= code && code < 0xDC00 {
                Emitted::Nothing
            } else {
                Emitted::Char(character(code as u32))
            }
        }
        None => unreachable!(),
    }
}

/// The last digit of the second escape of a pair.
fn pair_emitted(high: u32, value: u32, byte: u8) -> Emitted
    requires hex { is_hex byte ≡ true }
    requires high { IsHighHalf high }
    requires low { IsLowHalf (more value byte) }
    ensures { emitted_bytes result ≡ lex_emits (Low3 high value) byte }
{
    match hex_of(byte) {
        Some(digit) => {
            let low = (16 * value as u64 + digit as u64) as u32;
            Emitted::Char(character(0x1_0000 + 1024 * (high - 0xD800) + (low - 0xDC00)))
        }
        None => unreachable!(),
    }
}

/// What a byte adds to the text that a string stands for.
fn byte_emitted(lex: Lex, byte: u8) -> Emitted
    requires { CanEmit lex byte }
    ensures { emitted_bytes result ≡ lex_emits lex byte }
{
    match lex {
        Lex::Between => {
            if byte == b'\\' {
                Emitted::Nothing
            } else {
                Emitted::Byte(byte)
            }
        }
        Lex::Tail1
        | Lex::Tail2
        | Lex::Tail3
        | Lex::BehindE0
        | Lex::BehindEd
        | Lex::BehindF0
        | Lex::BehindF4 => Emitted::Byte(byte),
        Lex::Escape => {
            if byte == b'u' {
                Emitted::Nothing
            } else {
                Emitted::Byte(short_value(byte))
            }
        }
        Lex::Hex3(value) => last_emitted(value, byte),
        Lex::Low3(high, value) => pair_emitted(high, value, byte),
        _ => Emitted::Nothing,
    }
}

/// The bytes with those that a byte adds behind them.
fn with_emitted(text: Vec<u8>, piece: Emitted) -> Result<Vec<u8>, JsonFault>
    ensures text { IfOk result (λ more. more.items ≡ text.items ++ emitted_bytes piece) }
    ensures memory { IfErr result (λ f. f.code ≡ NoMemory) }
{
    let mut text = text;
    match piece {
        Emitted::Nothing => Ok(text),
        Emitted::Byte(byte) => match text.push(byte) {
            Ok(_) => Ok(text),
            Err(_) => Err(no_memory()),
        },
        Emitted::Char(c) => {
            let mut buffer = [0; 4];
            match text.extend_from_slice(c.encode_utf8(&mut buffer).as_bytes()) {
                Ok(_) => Ok(text),
                Err(_) => Err(no_memory()),
            }
        }
    }
}

/// What a string stands for, of which these are the bytes between its quotes.
fn unescaped_bytes(alloc: Global, bytes: &[u8]) -> Result<Vec<u8>, JsonFault>
    requires runs { LexRuns Between bytes.now }
    requires whole { lex_end Between bytes.now ≡ Between }
    ensures text { IfOk result (λ text. text.items ≡ lexed Between bytes.now) }
    ensures utf8 { IfOk result (λ text. is_utf8 text.items ≡ true) }
    ensures memory { IfErr result (λ f. f.code ≡ NoMemory) }
{
    let mut text = Vec::new(alloc);
    let mut lex = Lex::Between;
    let mut i = 0;
    'bytes: while i < bytes.len() {
        let byte = bytes[i];
        text = match with_emitted(text, byte_emitted(lex, byte)) {
            Ok(more) => more,
            Err(fault) => return Err(fault),
        };
        let LexGo::Goes(next) = lex_next(lex, byte) else {
            unreachable!();
        };
        lex = next;
        i += 1;
    }
    Ok(text)
}

/// A copy of a text.
pub fn text_of(alloc: Global, bytes: &[u8]) -> Result<Text, JsonFault>
    requires { IsUtf8 bytes.now }
    ensures ok { IfOk result (λ text. text ≡ bytes.now) }
    ensures memory { IfErr result (λ f. f.code ≡ NoMemory) }
{
    match from_utf8(bytes) {
        Ok(text) => match Text::copy(alloc, text) {
            Ok(copy) => Ok(copy),
            Err(_) => Err(no_memory()),
        },
        Err(_) => unreachable!(),
    }
}

/// What a string stands for, of which these are the bytes between its quotes.
pub fn unescaped(alloc: Global, bytes: &[u8]) -> Result<Text, JsonFault>
    requires runs { LexRuns Between bytes.now }
    requires whole { lex_end Between bytes.now ≡ Between }
    ensures text { IfOk result (λ text. text ≡ lexed Between bytes.now) }
    ensures memory { IfErr result (λ f. f.code ≡ NoMemory) }
{
    let text = unescaped_bytes(alloc, bytes)?;
    text_of(alloc, text.as_slice())
}

/// The string between the quotes at two places, lent where it has no escape.
pub fn string_text<'a>(
    alloc: Global,
    bytes: &'a [u8],
    start: usize,
    end: usize,
    plain: bool,
) -> Result<SpanText<'a>, JsonFault>
    requires behind { start < end }
    requires within { end < length bytes.now }
    requires opens { slice_index bytes.now start ≡ 34 }
    requires closes { slice_index bytes.now end ≡ 34 }
    requires runs { LexRuns Between (slice_range bytes.now (start + 1) end) }
    requires whole { lex_end Between (slice_range bytes.now (start + 1) end) ≡ Between }
    requires plain { plain ≡ true → IsUnmarked (slice_range bytes.now (start + 1) end) }
    requires escape { plain ≡ false → HasEscape bytes.now (start + 1) end }
    ensures text { IfOk result (λ text. text_seen text ≡ lexed Between (slice_range bytes.now (start + 1) end)) }
    ensures stands { IfOk result (λ text. IsStringAt bytes.now start end text) }
    ensures memory { IfErr result (λ f. f.code ≡ NoMemory) }
{
    if plain {
        return Ok(SpanText::Lent(&bytes[start + 1..end]));
    }
    let text = unescaped(alloc, &bytes[start + 1..end])?;
    Ok(SpanText::Made(text))
}
