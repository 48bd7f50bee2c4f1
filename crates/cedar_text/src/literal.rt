// SPDX-License-Identifier: Apache-2.0
ghost use Rattle.std.specs.Prelude.{◌≡◌, ℕ, List, true, ◌+◌, ◌^◌, ◌<◌, ◌≤◌, ◌++◌, [], ◌∷◌, length, Some, None, Ok, IfOk};
ghost use Rattle.std.specs.List.{list_all};
ghost use Rattle.std.specs.Str.{IsCharBoundary};
ghost use Rattle.cedar_text.specs.Escapes.{escaped};
ghost use Rattle.cedar_text.specs.Failures.{IfRefused};
ghost use Rattle.cedar_text.specs.NormalNames.{parts};
ghost use Rattle.cedar_text.specs.Unescaping.{unescaped};
ghost use Rattle.cedar_text.specs.Words.{is_word, is_unreserved_id};
ghost use Rattle.cedar_text.specs.declared.fault.NameFault.TheVariants.{BadToken};
ghost use Rattle.cedar_text.specs.declared.literal.Scan.TheVariants.{Closed};
ghost use Rattle.cedar_text.specs.Literals.{scan_items, before_quote, opening_fault, escape_fault, literal_fault, ClosesLiteral, AreItemBytes, uid_with, uid_fault, WritesUid};

use crate::fault::NameFault;
use crate::form::{Parts, bad_token, scan_parts};
use crate::unescaping::unescape;
use cedar_data::{Failure, Mem, Out, Text};
use std::alloc::Global;

/// What the items of a literal come to, behind the quote that opens it.
#[derive(Clone, Copy)]
enum Scan {
    /// So many bytes, and the quote that closes it.
    Closed(usize),
    /// The text ends within the literal.
    Unclosed,
    /// Behind so many bytes stands a backslash before a line feed.
    Broken(usize),
}

/// What the items of a literal come to, behind the quote that opens it.
fn scan_items(bytes: &[u8]) -> Scan
    ensures { result ≡ scan_items 0 None bytes.now }
{
    let mut backslash = None;
    for (at, byte) in bytes.iter().enumerate() {
        match backslash {
            Some(place) => {
                if *byte == b'\n' {
                    return Scan::Broken(place);
                }
                backslash = None;
            }
            None => {
                if *byte == b'"' {
                    return Scan::Closed(at);
                }
                if *byte == b'\\' {
                    backslash = Some(at);
                }
            }
        }
    }
    Scan::Unclosed
}

/// How many bytes come before the first quote.
fn quote_bytes_len(bytes: &[u8]) -> usize
    ensures value { result ≡ length (before_quote bytes.now) }
    ensures within { result ≤ length bytes.now }
{
    bytes.iter().take_while(|byte| **byte != b'"').count()
}

/// How many bytes of a text come before its first quote.
pub fn quote_place(s: &str) -> usize
    ensures value { result ≡ length (before_quote s.now) }
    ensures boundary { IsCharBoundary s.now result }
{
    quote_bytes_len(s.as_bytes())
}

/// The fault that a sign of ASCII stands at `at` where it may not.
fn sign_fault(alloc: Global, at: usize, sign: &str) -> Mem<NameFault>
    ensures { IfOk result (λ fault. fault ≡ BadToken at sign.now) }
{
    let token = Text::new(alloc, sign)?;
    Ok(NameFault::BadToken { at, token })
}

/// The words of a name, which stand with `::` behind each before a quote; refused with what is wrong with their form.
pub fn words_before_quote(alloc: Global, front: &str) -> Out<Vec<Text>, NameFault>
    ensures ok { IfOk result (λ words. (opening_fault front.now ≡ None)
        × (words.items ++ [] ∷ [] ≡ parts front.now)) }
    ensures refused { IfRefused result (λ fault. opening_fault front.now ≡ Some fault) }
{
    if front.is_empty() {
        let fault = sign_fault(alloc, 0, "\"")?;
        return Err(Failure::Refused(fault));
    }
    let Parts { words, unfinished } = scan_parts(alloc, front)?;
    if !unfinished {
        let fault = sign_fault(alloc, front.len(), "\"")?;
        return Err(Failure::Refused(fault));
    }
    Ok(words)
}

/// What the body of a literal stands for, which begins at `at`; refused with its first bad escape.
fn unescape_at(alloc: Global, at: usize, body: &str) -> Out<Text, NameFault>
    requires { at + length body.now < 2 ^ 64 }
    ensures ok { IfOk result (λ text. unescaped body.now ≡ Ok text) }
    ensures refused { IfRefused result (λ fault. escape_fault at (unescaped body.now)
        ≡ Some fault) }
{
    match unescape(alloc, body) {
        Ok(text) => {
            let text = Text::new(alloc, text.as_str())?;
            Ok(text)
        }
        Err(Failure::Refused(bad)) => {
            let fault = sign_fault(alloc, at + bad.at, "\\")?;
            Err(Failure::Refused(fault))
        }
        Err(Failure::NoMemory) => Err(Failure::NoMemory),
    }
}

/// What a literal stands for whose body has `n` bytes and begins at `at`; refused with its first bad escape, or else
/// with what follows it.
fn read_closed(alloc: Global, at: usize, inner: &str, n: usize) -> Out<Text, NameFault>
    requires fits { at + length inner.now < 2 ^ 64 }
    requires closed { scan_items 0 None inner.now ≡ Closed n }
    ensures ok { IfOk result (λ text. (literal_fault at inner.now ≡ None)
        × ClosesLiteral inner.now text) }
    ensures refused { IfRefused result (λ fault. literal_fault at inner.now ≡ Some fault) }
{
    let (body, quoted) = inner.split_at(n);
    let text = unescape_at(alloc, at, body)?;
    let rest = quoted.split_at(1).1;
    if !rest.is_empty() {
        let fault = bad_token(alloc, at + n + 1, rest)?;
        return Err(Failure::Refused(fault));
    }
    Ok(text)
}

/// What a literal stands for that begins before `at` with its quote; refused with what is wrong with it, or follows it.
pub fn read_literal(alloc: Global, at: usize, inner: &str) -> Out<Text, NameFault>
    requires { at + length inner.now < 2 ^ 64 }
    ensures ok { IfOk result (λ text. (literal_fault at inner.now ≡ None)
        × ClosesLiteral inner.now text) }
    ensures refused { IfRefused result (λ fault. literal_fault at inner.now ≡ Some fault) }
{
    match scan_items(inner.as_bytes()) {
        Scan::Unclosed => Err(Failure::Refused(NameFault::Empty)),
        Scan::Broken(n) => {
            let fault = sign_fault(alloc, at + n, "\\")?;
            Err(Failure::Refused(fault))
        }
        Scan::Closed(n) => read_closed(alloc, at, inner, n),
    }
}

/// The law that words, `::` and a literal are an entity, of these words and of the id that the literal stands for; so
/// what is printed of an entity is read back. It does nothing.
pub fn literal_makes_an_entity()
    ensures fault { (w : List ℕ) (ws : List (List ℕ)) (body id : List ℕ)
        → list_all is_unreserved_id (w ∷ ws) ≡ true → AreItemBytes body → unescaped body ≡ Ok id
        → uid_fault (uid_with (w ∷ ws) body) ≡ None }
    ensures printed { (w : List ℕ) (ws : List (List ℕ)) (id : List ℕ)
        → list_all is_unreserved_id (w ∷ ws) ≡ true
        → (uid_fault (uid_with (w ∷ ws) (escaped id)) ≡ None)
        × WritesUid (uid_with (w ∷ ws) (escaped id)) (w ∷ ws) id }
    ensures once { (s w v : List ℕ) (ws vs : List (List ℕ)) (id text : List ℕ)
        → list_all is_word (w ∷ ws) ≡ true → list_all is_word (v ∷ vs) ≡ true
        → WritesUid s (w ∷ ws) id → WritesUid s (v ∷ vs) text → (w ∷ ws ≡ v ∷ vs) × (id ≡ text) }
{}
