// SPDX-License-Identifier: Apache-2.0
ghost use Rattle.std.specs.Prelude.{◌≡◌, ℕ, List, ◌+◌, ◌-◌, ◌<◌, ◌≤◌, length, take, true, Some, None, Ok, Err, IfOk, codes, String};
ghost use Rattle.std.specs.Char.{is_ascii_hexdigit, digit_value};
ghost use Rattle.std.specs.List.{list_all, prefix_len};
ghost use Rattle.std.specs.Str.{IsCharBoundary};
ghost use Rattle.std.specs.String.{string_bytes};
ghost use Rattle.cedar_text.specs.Escapes.{escaped};
ghost use Rattle.cedar_text.specs.Failures.{IfRefused};
ghost use Rattle.cedar_text.specs.Unescaping.{sign_meaning, hex_value, hex_meaning, digits_meaning, braced_meaning, meaning_of, is_plain, unescaped};

use crate::location::Span;
use cedar_data::{Dup, Failure, Mem, Out};
use std::alloc::Global;
use std::error::Error;
use std::fmt;

/// An escape: the character that it stands for, and how many bytes it has behind its backslash.
#[derive(Clone, Copy)]
struct Meaning {
    meant: char,
    len: usize,
}

/// A text has a bad escape: a backslash at the byte offset `at` begins none.
#[derive(Clone, Copy, Debug, PartialEq, Eq)]
pub struct BadEscape {
    /// The byte offset of the backslash.
    pub at: usize,
}

impl fmt::Display for BadEscape {
    ghost output = { λ _. Some (codes "Invalid escape codes") };

    fn fmt<W: fmt::Write>(&self, f: &mut fmt::Formatter<W>) -> fmt::Result {
        write!(f, "Invalid escape codes")
    }
}

impl BadEscape {
    ghost use Rattle.std.specs.Prelude.{[]};

    /// What to do about it: there is nothing to say.
    pub fn help(&self, _alloc: Global) -> Mem<Option<String>>
        ensures { IfOk result (λ help. help ≡ None) }
    {
        Ok(None)
    }

    /// The places of the kept pieces that have one: none has.
    pub fn spans(&self, alloc: Global) -> Mem<Vec<Span>>
        ensures { IfOk result (λ spans. spans.items ≡ []) }
    {
        Ok(Vec::new(alloc))
    }
}

impl Error for BadEscape {}

impl Dup for BadEscape {
    fn dup(&self, _alloc: Global) -> Mem<BadEscape> {
        Ok(*self)
    }
}

/// The character that a sign stands for behind a backslash, where it is an escape by itself.
fn sign_meaning(sign: u8) -> Option<char>
    ensures { result ≡ sign_meaning sign }
{
    match sign {
        b'n' => Some('\n'),
        b'r' => Some('\r'),
        b't' => Some('\t'),
        b'\\' => Some('\\'),
        b'0' => Some('\0'),
        b'\'' => Some('\''),
        b'"' => Some('"'),
        _ => None,
    }
}

/// The value of a hexadecimal digit.
fn digit_value(digit: u8) -> u32
    requires { is_ascii_hexdigit digit ≡ true }
    ensures value { result ≡ digit_value digit }
    ensures small { result < 16 }
{
    let value = match digit {
        b'0'..=b'9' => digit - b'0',
        b'A'..=b'F' => digit - b'A' + 10,
        _ => digit - b'a' + 10,
    };
    u32::from(value)
}

/// The number that hexadecimal digits write.
fn hex_value(digits: &[u8]) -> u32
    requires few { length digits.now ≤ 6 }
    requires hexadecimal { list_all is_ascii_hexdigit digits.now ≡ true }
    ensures { result ≡ hex_value digits.now }
{
    let mut value = 0;
    for digit in digits {
        value = value * 16 + digit_value(*digit);
    }
    value
}

/// How many hexadecimal digits stand at the front.
fn hex_len(bytes: &[u8]) -> usize
    ensures value { result ≡ length (take (prefix_len is_ascii_hexdigit bytes.now) bytes.now) }
    ensures within { result ≤ length bytes.now }
{
    bytes
        .iter()
        .take_while(|byte| byte.is_ascii_hexdigit())
        .count()
}

/// The escape of `x` and two hexadecimal digits, at most 7F, that stands before the bytes but for its `x`.
fn hex_meaning(bytes: &[u8]) -> Option<Meaning>
    ensures { result ≡ hex_meaning bytes.now }
{
    if bytes.len() < 2 || !bytes[0].is_ascii_hexdigit() || !bytes[1].is_ascii_hexdigit() {
        return None;
    }
    let code = digit_value(bytes[0]) * 16 + digit_value(bytes[1]);
    if code >= 128 {
        return None;
    }
    let meant = char::from_u32(code)?;
    Some(Meaning { meant, len: 3 })
}

/// The escape in braces that the first `n` of the bytes write, where they are its hexadecimal digits.
fn digits_meaning(bytes: &[u8], n: usize) -> Option<Meaning>
    requires within { n ≤ length bytes.now }
    requires hexadecimal { list_all is_ascii_hexdigit (take n bytes.now) ≡ true }
    ensures { result ≡ digits_meaning bytes.now n }
{
    if n == 0 || n > 6 || !bytes[n..].starts_with(b"}") {
        return None;
    }
    let meant = char::from_u32(hex_value(&bytes[..n]))?;
    Some(Meaning { meant, len: n + 3 })
}

/// The escape of `u` and hexadecimal digits in braces that stands before the bytes but for its `u`.
fn braced_meaning(bytes: &[u8]) -> Option<Meaning>
    ensures { result ≡ braced_meaning bytes.now }
{
    let (open_brace, digits) = bytes.split_first()?;
    if *open_brace != b'{' {
        return None;
    }
    digits_meaning(digits, hex_len(digits))
}

/// The escape whose backslash stands before the bytes, if there is one.
fn meaning_of(bytes: &[u8]) -> Option<Meaning>
    ensures { result ≡ meaning_of bytes.now }
{
    let (sign, rest) = bytes.split_first()?;
    match sign_meaning(*sign) {
        Some(meant) => Some(Meaning { meant, len: 1 }),
        None => match *sign {
            b'x' => hex_meaning(rest),
            b'u' => braced_meaning(rest),
            _ => None,
        },
    }
}

/// How many bytes at the front come before a backslash.
fn plain_bytes_len(bytes: &[u8]) -> usize
    ensures value { result ≡ length (take (prefix_len is_plain bytes.now) bytes.now) }
    ensures within { result ≤ length bytes.now }
{
    bytes.iter().take_while(|byte| **byte != b'\\').count()
}

/// How many bytes at the front of a text come before a backslash.
fn plain_len(s: &str) -> usize
    ensures value { result ≡ length (take (prefix_len is_plain s.now) s.now) }
    ensures boundary { IsCharBoundary s.now result }
{
    plain_bytes_len(s.as_bytes())
}

/// What the text of a literal stands for; refused with its first bad escape.
pub fn unescape(alloc: Global, body: &str) -> Out<String, BadEscape>
    ensures ok { IfOk result (λ text. unescaped body.now ≡ Ok (string_bytes text)) }
    ensures refused { IfRefused result (λ bad. unescaped body.now ≡ Err bad.at) }
    ensures within { IfRefused result (λ bad. bad.at < length body.now) }
{
    let mut text = String::new(alloc);
    let mut rest = body;
    let mut at = 0;
    'pieces: loop {
        let plain = plain_len(rest);
        let (front, escape) = rest.split_at(plain);
        text.push_str(front)?;
        if escape.is_empty() {
            return Ok(text);
        }
        let behind = escape.split_at(1).1;
        let Some(meaning) = meaning_of(behind.as_bytes()) else {
            return Err(Failure::Refused(BadEscape { at: at + plain }));
        };
        text.push(meaning.meant)?;
        rest = behind.split_at(meaning.len).1;
        at += plain + 1 + meaning.len;
    }
}

/// The law that escaped text stands for the text itself. It does nothing.
pub fn unescape_undoes_escape()
    ensures { (s : List ℕ) → unescaped (escaped s) ≡ Ok s }
{}
