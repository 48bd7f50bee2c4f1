// SPDX-License-Identifier: Apache-2.0
ghost use Rattle.std.specs.Prelude.{◌≡◌, ◌↔◌, ◌∷◌, [], ℕ, List, IfOk, IsTrue, MatchOption, None, map, codes, decimal};
ghost use Rattle.std.specs.String.{string_bytes};
ghost use Rattle.cedar_names.specs.ExtensionFaults.{extensions_fault};
ghost use Rattle.cedar_names.specs.Extensions.{extension_words};
ghost use Rattle.cedar_text.specs.Words.{has_word};
ghost use Rattle.cedar_commands.specs.CommandLine.{ext_words};
ghost use Rattle.cedar_commands.specs.Asking.{Found, Begin, BeginWithNone, Number, NoNumber, FoundNumber, FoundPlain, FoundReview, FoundOptions, FoundNamed};

use crate::command::{Command, Review};
use cedar_data::{Failure, Mem, NoMemory, Text};
use cedar_names::Extensions;
use std::alloc::Global;

/// The greatest size that `bench` takes.
const GREATEST_SIZE: u32 = 5_000;

/// The command that the words of the command line ask for, and the extension types with which; none
/// where the words are no line of the program. It fails only for want of memory.
pub fn asked(alloc: Global, words: &[String]) -> Mem<Option<(Command, Extensions)>>
    ensures { IfOk result (λ found. Found (map string_bytes words.now) found) }
{
    let Some((command, options)) = command_of(words) else {
        return Ok(None);
    };
    match extensions_of(alloc, options) {
        Ok(Some(extensions)) => Ok(Some((command, extensions))),
        Ok(None) => Ok(None),
        Err(NoMemory) => Err(NoMemory),
    }
}

/// The command that the words begin with, and the words behind it.
fn command_of(words: &[String]) -> Option<(Command, &[String])>
    ensures { MatchOption result (BeginWithNone (map string_bytes words.now))
        (λ found. Begin (map string_bytes words.now) found.0 (map string_bytes found.1.now)) }
{
    let Some((word, others)) = words.split_first() else {
        return None;
    };
    if word.as_str() == "bench" {
        let Some((size, options)) = size_of(others) else {
            return None;
        };
        return Some((Command::Bench(size), options));
    }
    match plain_command(word.as_str()) {
        Some(command) => Some((command, others)),
        None => None,
    }
}

/// The size that the words begin with, and the words behind it.
fn size_of(words: &[String]) -> Option<(u32, &[String])>
    ensures { MatchOption result (NoNumber (map string_bytes words.now))
        (λ found. Number (map string_bytes words.now) found.0 (map string_bytes found.1.now)) }
{
    let Some((word, options)) = words.split_first() else {
        return None;
    };
    match size(word.as_str()) {
        Some(size) => Some((size, options)),
        None => None,
    }
}

/// The size that a word writes, in the one way in which a number is written.
fn size(word: &str) -> Option<u32>
    ensures { FoundNumber word.now result }
{
    let Ok(size) = word.parse::<u32>() else {
        return None;
    };
    if size == 0 || size > GREATEST_SIZE {
        return None;
    }
    if !is_decimal(word.as_bytes(), size) {
        return None;
    }
    Some(size)
}

/// Whether these are the decimal digits of the number, of which the first is no zero but that of zero itself.
fn is_decimal(digits: &[u8], number: u32) -> bool
    ensures { IsTrue result ↔ (digits.now ≡ decimal number) }
{
    let Some((last, front)) = digits.split_last() else {
        return false;
    };
    if u32::from(*last) != 48 + number % 10 {
        return false;
    }
    if number < 10 {
        return front.is_empty();
    }
    is_decimal(front, number / 10)
}

/// The command that is this one word.
fn plain_command(word: &str) -> Option<Command>
    ensures { FoundPlain word.now result }
{
    match word {
        "resolve" => Some(Command::Resolve),
        "resolve-json" => Some(Command::ResolveJson),
        "check" => Some(Command::Check),
        "to-json" => Some(Command::ToJson),
        "to-cedar" => Some(Command::ToCedar),
        _ => review_command(word),
    }
}

/// The command that is this one word, where it asks for a review.
fn review_command(word: &str) -> Option<Command>
    ensures { FoundReview word.now result }
{
    match word {
        "conform" => Some(Command::Review(Review::Conform)),
        "request" => Some(Command::Review(Review::Request)),
        "merge" => Some(Command::Review(Review::Merge)),
        "compat" => Some(Command::Review(Review::Compat)),
        _ => None,
    }
}

/// The extension types that the words behind the command ask for.
fn extensions_of(alloc: Global, options: &[String]) -> Mem<Option<Extensions>>
    ensures { IfOk result (λ found. FoundOptions (map string_bytes options.now) found) }
{
    match options {
        [] => {
            let extensions = Extensions::all_available(alloc)?;
            Ok(Some(extensions))
        }
        [option] => {
            if option.as_str() == "--ext-none" {
                Ok(Some(Extensions::none(alloc)))
            } else {
                Ok(None)
            }
        }
        _ => named_extensions(alloc, options),
    }
}

/// The extension types that are named one by one.
fn named_extensions(alloc: Global, options: &[String]) -> Mem<Option<Extensions>>
    ensures { IfOk result (λ found. FoundNamed (map string_bytes options.now) found) }
{
    let Some(names) = named(alloc, options)? else {
        return Ok(None);
    };
    match Extensions::new(alloc, names.as_slice()) {
        Ok(extensions) => Ok(Some(extensions)),
        Err(Failure::Refused(_)) => Ok(None),
        Err(Failure::NoMemory) => Err(NoMemory),
    }
}

/// The names, where the words are `--ext` and a name, again and again.
fn named(alloc: Global, options: &[String]) -> Mem<Option<Vec<Text>>>
    ensures { IfOk result (λ found. MatchOption found ((names : List (List ℕ))
        → map string_bytes options.now ≡ ext_words names → ⊥) (λ names. map string_bytes options.now
        ≡ ext_words names.items)) }
{
    let mut names = Vec::new(alloc);
    let mut index = 0;
    while index < options.len() {
        if options.len() - index < 2 {
            return Ok(None);
        }
        if options[index].as_str() != "--ext" {
            return Ok(None);
        }
        let name = Text::new(alloc, options[index + 1].as_str())?;
        names.push(name)?;
        index += 2;
    }
    Ok(Some(names))
}
