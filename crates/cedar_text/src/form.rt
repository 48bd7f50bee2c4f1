// SPDX-License-Identifier: Apache-2.0
ghost use Rattle.std.specs.Prelude.{◌≡◌, ◌≤◌, ◌++◌, ◌∷◌, ℕ, Bool, List, true, false, length, Some, None, IfOk, IsErr};
ghost use Rattle.std.specs.List.{take_while, list_all};
ghost use Rattle.std.specs.Str.{IsCharBoundary};
ghost use Rattle.cedar_text.specs.Failures.{IfRefused};
ghost use Rattle.cedar_text.specs.Faults.{token_at, word_len, form_fault};
ghost use Rattle.cedar_text.specs.Joining.{joined};
ghost use Rattle.cedar_text.specs.NormalNames.{parts, parts_fault, name_fault, may_stand, end_fault, open_part, is_empty_fault};
ghost use Rattle.cedar_text.specs.Words.{is_word, is_word_byte};
ghost use Rattle.cedar_text.specs.declared.fault.NameFault.TheVariants.{BadToken, Reserved};

use crate::fault::NameFault;
use crate::words::{is_word, is_word_byte, is_word_start};
use cedar_data::{Failure, Mem, Out, Text};
use std::alloc::Global;

/// The token at the front of a text: `::`, or else the first character. An empty text has the empty token.
fn token_at(s: &str) -> &str
    ensures { result.now ≡ token_at s.now }
{
    if s.as_bytes().starts_with(b"::") {
        return "::";
    }
    match s.chars().next() {
        Some(c) => s.split_at(c.len_utf8()).0,
        None => s,
    }
}

/// How many bytes at the front may go on a word.
fn word_bytes_len(bytes: &[u8]) -> usize
    ensures value { result ≡ length (take_while is_word_byte bytes.now) }
    ensures within { result ≤ length bytes.now }
{
    bytes.iter().take_while(|byte| is_word_byte(**byte)).count()
}

/// The length of the longest word at the front of a text, or 0.
fn word_len(s: &str) -> usize
    ensures value { result ≡ word_len s.now }
    ensures boundary { IsCharBoundary s.now result }
{
    match s.as_bytes().split_first() {
        Some((first, rest)) if is_word_start(*first) => 1 + word_bytes_len(rest),
        _ => 0,
    }
}

/// The fault that a text goes on otherwise than it may at `at`, where `rest` is what it has there.
pub fn bad_token(alloc: Global, at: usize, rest: &str) -> Mem<NameFault>
    ensures { IfOk result (λ fault. fault ≡ BadToken at (token_at rest.now)) }
{
    let token = Text::new(alloc, token_at(rest))?;
    Ok(NameFault::BadToken { at, token })
}

/// Whether the text is one word; refused with what is wrong with its form.
pub fn check_form(alloc: Global, s: &str) -> Out<(), NameFault>
    ensures ok { IfOk result (λ _. form_fault s.now ≡ None) }
    ensures refused { IfRefused result (λ fault. form_fault s.now ≡ Some fault) }
{
    if s.is_empty() {
        return Err(Failure::Refused(NameFault::Empty));
    }
    if is_word(s) {
        return Ok(());
    }
    let at = word_len(s);
    let fault = bad_token(alloc, at, s.split_at(at).1)?;
    Err(Failure::Refused(fault))
}

/// The words of a text between `::`. Where `unfinished` is set, the text ends where one more word has to begin.
#[derive(Drop)]
pub struct Parts {
    pub words: Vec<Text>,
    pub unfinished: bool,
}

/// The words of a text between `::`; refused with what is wrong with its form, but for its end where a word has to
/// begin.
pub fn scan_parts(alloc: Global, s: &str) -> Out<Parts, NameFault>
    ensures ok { IfOk result (λ found.
        (parts_fault s.now 0 (parts s.now) ≡ end_fault found.unfinished)
        × (found.words.items ++ open_part found.unfinished ≡ parts s.now)) }
    ensures refused { IfRefused result (λ fault.
        (parts_fault s.now 0 (parts s.now) ≡ Some fault) × (is_empty_fault fault ≡ false)) }
{
    let mut words = Vec::new(alloc);
    let mut rest = s;
    let mut at = 0;
    'parts: loop {
        if rest.is_empty() {
            return Ok(Parts {
                words,
                unfinished: true,
            });
        }
        let len = word_len(rest);
        if len == 0 {
            let fault = bad_token(alloc, at, rest)?;
            return Err(Failure::Refused(fault));
        }
        let (word, after) = rest.split_at(len);
        words.push(Text::new(alloc, word)?)?;
        if after.is_empty() {
            return Ok(Parts {
                words,
                unfinished: false,
            });
        }
        if !after.as_bytes().starts_with(b"::") {
            let fault = bad_token(alloc, at + len, after)?;
            return Err(Failure::Refused(fault));
        }
        rest = after.split_at(2).1;
        at += len + 2;
    }
}

/// The words of a text between `::`; refused with what is wrong with its form.
pub fn parts_of(alloc: Global, s: &str) -> Out<Vec<Text>, NameFault>
    ensures ok { IfOk result (λ words. (parts_fault s.now 0 (parts s.now) ≡ None)
        × (words.items ≡ parts s.now)) }
    ensures refused { IfRefused result (λ fault. parts_fault s.now 0 (parts s.now) ≡ Some fault) }
{
    let Parts { words, unfinished } = scan_parts(alloc, s)?;
    if unfinished {
        return Err(Failure::Refused(NameFault::Empty));
    }
    Ok(words)
}

/// The refusal of a word that may not stand where it does.
pub fn reserved<T>(alloc: Global, word: &str) -> Out<T, NameFault>
    ensures refuses { IsErr result }
    ensures refused { IfRefused result (λ fault. fault ≡ Reserved word.now) }
{
    let word = Text::new(alloc, word)?;
    Err(Failure::Refused(NameFault::Reserved { word }))
}

/// The law that words with `::` between them are a name of these words, where none is excluded. It does nothing.
pub fn words_make_a_name()
    ensures fault { (excluded : List ℕ → Bool) (w : List ℕ) (ws : List (List ℕ))
        → list_all (may_stand excluded) (w ∷ ws) ≡ true
        → name_fault excluded (joined (w ∷ ws)) ≡ None }
    ensures words { (w : List ℕ) (ws : List (List ℕ)) → list_all is_word (w ∷ ws) ≡ true
        → parts (joined (w ∷ ws)) ≡ w ∷ ws }
{}
