// SPDX-License-Identifier: Apache-2.0
ghost use Rattle.std.specs.Prelude.{◌≡◌};
ghost use Rattle.std.specs.List.{list_all};
ghost use Rattle.cedar_text.specs.Words.{is_word_start, is_word_byte, is_word, is_reserved_word, is_cedar, is_primitive_word};

/// Whether a word may begin with the byte.
pub fn is_word_start(byte: u8) -> bool
    ensures { result ≡ is_word_start byte }
{
    byte.is_ascii_alphabetic() || byte == b'_'
}

/// Whether a word may go on with the byte.
pub fn is_word_byte(byte: u8) -> bool
    ensures { result ≡ is_word_byte byte }
{
    byte.is_ascii_alphanumeric() || byte == b'_'
}

/// Whether a word may go on with each of the bytes.
fn are_word_bytes(bytes: &[u8]) -> bool
    ensures { result ≡ list_all is_word_byte bytes.now }
{
    bytes.iter().all(|byte| is_word_byte(*byte))
}

/// Whether the text is a word.
pub fn is_word(s: &str) -> bool
    ensures { result ≡ is_word s.now }
{
    match s.as_bytes().split_first() {
        Some((first, rest)) => is_word_start(*first) && are_word_bytes(rest),
        None => false,
    }
}

/// Whether the text is one of the nine reserved words.
pub fn is_reserved_word(s: &str) -> bool
    ensures { result ≡ is_reserved_word s.now }
{
    match s.as_bytes().first() {
        Some(b't') => s == "true" || s == "then",
        Some(b'f') => s == "false",
        Some(b'i') => s == "if" || s == "in" || s == "is",
        Some(b'e') => s == "else",
        Some(b'l') => s == "like",
        Some(b'h') => s == "has",
        _ => false,
    }
}

/// Whether the text is the word `__cedar`.
pub fn is_cedar(s: &str) -> bool
    ensures { result ≡ is_cedar s.now }
{
    s == "__cedar"
}

/// Whether the text is the word of a primitive type.
pub fn is_primitive_word(s: &str) -> bool
    ensures { result ≡ is_primitive_word s.now }
{
    s == "Bool" || s == "Long" || s == "String"
}
