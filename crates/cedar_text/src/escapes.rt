// SPDX-License-Identifier: Apache-2.0
ghost use Rattle.std.specs.Prelude.{◌≡◌, ◌==◌, ◌≤◌, ◌<◌, [], ◌∷◌, ◌++◌, length, false, IsTrue, IfOk, Some, codes, encode_utf8, String};
ghost use Rattle.std.specs.Char.{is_ascii_control};
ghost use Rattle.std.specs.Fmt.{WritesOnOk, digits, digit_glyph};
ghost use Rattle.std.specs.List.{list_all};
ghost use Rattle.std.specs.String.{string_bytes};
ghost use Rattle.cedar_text.specs.Escapes.{escaped_byte, escaped_char, escaped, backslashed};

use cedar_data::{Dup, Mem};
use std::alloc::Global;
use std::fmt;

/// The bytes that stand for one byte in quoted text, at most six.
#[derive(Clone, Copy, Debug, PartialEq, Eq)]
pub struct EscapedByte {
    bytes: [u8; 6],
    len: usize,
    pub ghost within: { len ≤ 6 },
}

impl EscapedByte {
    ghost use Rattle.cedar_text.specs.EscapedByte.{escape_bytes};

    /// What stands for the byte in quoted text.
    pub fn of(byte: u8) -> EscapedByte
        ensures { escape_bytes result ≡ escaped_byte byte }
    {
        match byte {
            0 => EscapedByte::backslashed(b'0'),
            b'\t' => EscapedByte::backslashed(b't'),
            b'\n' => EscapedByte::backslashed(b'n'),
            b'\r' => EscapedByte::backslashed(b'r'),
            b'"' | b'\'' | b'\\' => EscapedByte::backslashed(byte),
            _ if byte.is_ascii_control() => EscapedByte::numbered(byte),
            _ => EscapedByte {
                bytes: [byte, 0, 0, 0, 0, 0],
                len: 1,
            },
        }
    }

    /// A backslash and the sign.
    fn backslashed(sign: u8) -> EscapedByte
        ensures { escape_bytes result ≡ backslashed sign }
    {
        EscapedByte {
            bytes: [b'\\', sign, 0, 0, 0, 0],
            len: 2,
        }
    }

    /// The byte by its number.
    #[tactic(auto, using(std::proofs::lemmas::Fmt::hex_one_digit, std::proofs::lemmas::Fmt::hex_two_digits))]
    fn numbered(byte: u8) -> EscapedByte
        ensures { escape_bytes result ≡ codes "\\u{" ++ digits 16 false byte ++ codes "}" }
    {
        let low = hex_digit(byte % 16);
        if byte < 16 {
            return EscapedByte {
                bytes: [b'\\', b'u', b'{', low, b'}', 0],
                len: 5,
            };
        }
        let high = hex_digit(byte / 16);
        EscapedByte {
            bytes: [b'\\', b'u', b'{', high, low, b'}'],
            len: 6,
        }
    }

    /// The bytes, which are text.
    pub fn as_bytes(&self) -> &[u8]
        ensures { result.now ≡ escape_bytes self.now }
    {
        &self.bytes[..self.len]
    }
}

impl Dup for EscapedByte {
    fn dup(&self, _alloc: Global) -> Mem<EscapedByte> {
        Ok(*self)
    }
}

/// The lower-case hexadecimal digit of a number below 16.
fn hex_digit(n: u8) -> u8
    requires { n < 16 }
    ensures { result ≡ digit_glyph false n }
{
    if n < 10 { b'0' + n } else { b'a' + (n - 10) }
}

/// A text that is displayed as it stands in quoted text.
#[derive(Clone, Copy, Debug)]
pub struct Escaped<'a>(pub &'a str);

/// Writes a character as it stands in quoted text.
fn write_escaped<W: fmt::Write>(f: &mut fmt::Formatter<W>, c: char) -> fmt::Result
    ensures { WritesOnOk W.write_str_gives f.old result (escaped_char c) f.new }
{
    match c {
        '\0' => write!(f, "\\0"),
        '\t' => write!(f, "\\t"),
        '\n' => write!(f, "\\n"),
        '\r' => write!(f, "\\r"),
        '"' => write!(f, "\\\""),
        '\'' => write!(f, "\\'"),
        '\\' => write!(f, "\\\\"),
        _ if c.is_ascii_control() => {
            let number = c as u32;
            write!(f, "\\u{{{number:x}}}")
        }
        _ => write!(f, "{c}"),
    }
}

/// Whether the byte stands for itself in quoted text.
fn stands_alone(byte: u8) -> bool
    ensures { result ≡ (length (escaped_byte byte) == 1) }
{
    !(byte.is_ascii_control() || byte == b'"' || byte == b'\'' || byte == b'\\')
}

/// Whether each byte of the text stands for itself in quoted text.
fn has_no_escape(text: &str) -> bool
    ensures { result ≡ list_all (λ b. length (escaped_byte b) == 1) text.now }
{
    text.as_bytes().iter().all(|byte| stands_alone(*byte))
}

/// Writes each character as it stands in quoted text.
fn write_characters<W: fmt::Write>(text: &str, f: &mut fmt::Formatter<W>) -> fmt::Result
    ensures { WritesOnOk W.write_str_gives f.old result (escaped text.now) f.new }
{
    for c in text.chars() {
        write_escaped(f, c)?;
    }
    Ok(())
}

impl fmt::Display for Escaped<'_> {
    ghost output = { λ e. Some (escaped e.0.now) };

    fn fmt<W: fmt::Write>(&self, f: &mut fmt::Formatter<W>) -> fmt::Result {
        if has_no_escape(self.0) {
            return f.write_str(self.0);
        }
        write_characters(self.0, f)
    }
}

/// The text as it stands in quoted text.
pub fn escape(alloc: Global, s: &str) -> Mem<String>
    ensures { IfOk result (λ text. string_bytes text ≡ escaped s.now) }
{
    let text = Escaped(s).to_string(alloc)?;
    Ok(text)
}
