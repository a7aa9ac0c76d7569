//! Where the values of JSON end that are no strings and no containers: words and numbers.
ghost use Rattle.std.specs.Prelude.{◌≡◌, ℕ, ◌+◌, ◌<◌, ◌≤◌, List, length, slice_index, slice_range, IfOk, IfErr, Bool};
ghost use Rattle.json_text.specs.Kept.{Kept, Wishes};
ghost use Rattle.json_text.specs.Cutting.{NumberStops, WordCut, IsScalarText, ScalarCut, IsLexCode};
ghost use Rattle.json_text.specs.Lexing.{is_nonzero as nonzero_byte};
ghost use Rattle.json_text.specs.Machine.{Frame, value, in_number, word_on, finish, if_kept, scalar_value, from, fault, IsLetterAt, IsScalarAt};
ghost use Rattle.json_text.specs.declared.number.Phase.TheVariants.{Minus};

use crate::class::{Class, class_of};
use crate::fault::{JsonFault, not_json};
use crate::number::Phase;
use crate::number_ends::number_end;

/// A value that is no string and no container.
#[derive(Clone, Copy)]
pub enum Scalar {
    Null,
    True,
    False,
    /// One of the four bare words.
    Word,
    Number,
}

/// The place behind the last bytes of a word.
fn word_end(bytes: &[u8], at: usize, rest: &[u8]) -> Result<usize, JsonFault>
    requires { at ≤ length bytes.now }
    ensures within { IfOk result (λ end. (at ≤ end) × (end ≤ length bytes.now)) }
    ensures spelled { IfOk result (λ end. slice_range bytes.now at end ≡ rest.now) }
    ensures cut { IfErr result (λ f. WordCut bytes.now at f.at rest.now) }
    ensures code { IfErr result (λ f. IsLexCode f.code) }
    ensures word { IfOk result (λ end. (w : Wishes) (v : Kept) (n : ℕ) (fs : List Frame)
        → from w bytes.now at (word_on v rest.now n fs) ≡ from w bytes.now end (finish v n fs)) }
    ensures fault { IfErr result (λ f. (w : Wishes) (v : Kept) (n : ℕ) (fs : List Frame)
        → from w bytes.now at (word_on v rest.now n fs) ≡ fault f.code f.at) }
{
    let mut i = at;
    let mut k = 0;
    while k < rest.len() {
        if i == bytes.len() {
            return Err(not_json(i));
        }
        if bytes[i] != rest[k] {
            return Err(not_json(i));
        }
        i += 1;
        k += 1;
    }
    Ok(i)
}

/// Whether a byte is a digit but 0.
fn is_nonzero(byte: u8) -> bool
    ensures { result ≡ nonzero_byte byte }
{
    b'1' <= byte && byte <= b'9'
}

/// Behind a minus: the rest of a numeral or of a word.
fn minus_end(bytes: &[u8], at: usize) -> Result<(Scalar, usize), JsonFault>
    requires within { at < length bytes.now }
    requires minus { slice_index bytes.now at ≡ 45 }
    ensures within { IfOk result (λ r. (at < r.1) × (r.1 ≤ length bytes.now)) }
    ensures scalar { IfOk result (λ r. IsScalarText (slice_range bytes.now at r.1)) }
    ensures stops { IfOk result (λ r. NumberStops bytes.now at r.1) }
    ensures cut { IfErr result (λ f. ScalarCut bytes.now at f.at) }
    ensures code { IfErr result (λ f. IsLexCode f.code) }
    ensures ok { IfOk result (λ r. (w : Wishes) (keep : Bool) (n : ℕ) (fs : List Frame)
        → from w bytes.now (at + 1) (in_number keep at (slice_range bytes.now at (at + 1)) Minus n fs)
        ≡ from w bytes.now r.1 (finish (if_kept keep at (scalar_value r.0 at (slice_range bytes.now at r.1))) n fs)) }
    ensures fault { IfErr result (λ f. (w : Wishes) (keep : Bool) (n : ℕ) (fs : List Frame)
        → from w bytes.now (at + 1) (in_number keep at (slice_range bytes.now at (at + 1)) Minus n fs) ≡ fault f.code f.at) }
{
    if at + 1 == bytes.len() {
        return Err(not_json(at + 1));
    }
    let byte = bytes[at + 1];
    if byte == b'0' {
        let end = number_end(bytes, at, at + 2, Phase::Zero)?;
        return Ok((Scalar::Number, end));
    }
    if is_nonzero(byte) {
        let end = number_end(bytes, at, at + 2, Phase::Whole)?;
        return Ok((Scalar::Number, end));
    }
    if byte == b'i' {
        let end = word_end(bytes, at + 2, b"nf")?;
        return Ok((Scalar::Word, end));
    }
    if byte == b'n' {
        let end = word_end(bytes, at + 2, b"an")?;
        return Ok((Scalar::Word, end));
    }
    Err(not_json(at + 1))
}

/// The rest of a word from its first letter on.
fn letters_end(bytes: &[u8], at: usize) -> Result<(Scalar, usize), JsonFault>
    requires within { at < length bytes.now }
    requires letter { IsLetterAt bytes.now at }
    ensures within { IfOk result (λ r. (at < r.1) × (r.1 ≤ length bytes.now)) }
    ensures scalar { IfOk result (λ r. IsScalarText (slice_range bytes.now at r.1)) }
    ensures stops { IfOk result (λ r. NumberStops bytes.now at r.1) }
    ensures cut { IfErr result (λ f. ScalarCut bytes.now at f.at) }
    ensures code { IfErr result (λ f. IsLexCode f.code) }
    ensures ok { IfOk result (λ r. (w : Wishes) (keep : Bool) (n : ℕ) (fs : List Frame)
        → from w bytes.now at (value keep n fs)
        ≡ from w bytes.now r.1 (finish (if_kept keep at (scalar_value r.0 at (slice_range bytes.now at r.1))) n fs)) }
    ensures fault { IfErr result (λ f. (w : Wishes) (keep : Bool) (n : ℕ) (fs : List Frame)
        → from w bytes.now at (value keep n fs) ≡ fault f.code f.at) }
{
    let byte = bytes[at];
    if byte == b't' {
        let end = word_end(bytes, at + 1, b"rue")?;
        return Ok((Scalar::True, end));
    }
    if byte == b'f' {
        let end = word_end(bytes, at + 1, b"alse")?;
        return Ok((Scalar::False, end));
    }
    if byte == b'i' {
        let end = word_end(bytes, at + 1, b"nf")?;
        return Ok((Scalar::Word, end));
    }
    if at + 1 == bytes.len() {
        return Err(not_json(at + 1));
    }
    let second = bytes[at + 1];
    if second == b'u' {
        let end = word_end(bytes, at + 2, b"ll")?;
        return Ok((Scalar::Null, end));
    }
    if second == b'a' {
        let end = word_end(bytes, at + 2, b"n")?;
        return Ok((Scalar::Word, end));
    }
    Err(not_json(at + 1))
}

/// The kind of a value that is no string and no container, and the place behind it.
pub fn scalar_end(bytes: &[u8], at: usize) -> Result<(Scalar, usize), JsonFault>
    requires within { at < length bytes.now }
    requires scalar { IsScalarAt bytes.now at }
    ensures within { IfOk result (λ r. (at < r.1) × (r.1 ≤ length bytes.now)) }
    ensures scalar { IfOk result (λ r. IsScalarText (slice_range bytes.now at r.1)) }
    ensures stops { IfOk result (λ r. NumberStops bytes.now at r.1) }
    ensures cut { IfErr result (λ f. ScalarCut bytes.now at f.at) }
    ensures code { IfErr result (λ f. IsLexCode f.code) }
    ensures ok { IfOk result (λ r. (w : Wishes) (keep : Bool) (n : ℕ) (fs : List Frame)
        → from w bytes.now at (value keep n fs)
        ≡ from w bytes.now r.1 (finish (if_kept keep at (scalar_value r.0 at (slice_range bytes.now at r.1))) n fs)) }
    ensures fault { IfErr result (λ f. (w : Wishes) (keep : Bool) (n : ℕ) (fs : List Frame)
        → from w bytes.now at (value keep n fs) ≡ fault f.code f.at) }
{
    match class_of(bytes[at]) {
        Class::Zero => {
            let end = number_end(bytes, at, at + 1, Phase::Zero)?;
            Ok((Scalar::Number, end))
        }
        Class::Digit => {
            let end = number_end(bytes, at, at + 1, Phase::Whole)?;
            Ok((Scalar::Number, end))
        }
        Class::Minus => minus_end(bytes, at),
        Class::Letter => letters_end(bytes, at),
        _ => Err(not_json(at)),
    }
}
