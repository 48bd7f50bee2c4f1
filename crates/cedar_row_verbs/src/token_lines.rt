// SPDX-License-Identifier: Apache-2.0
use cedar_data::{Failure, Mem, NoMemory};
use cedar_tokens::{Lexeme, TokenKind, lexemes};
use std::alloc::Global;

/// `tokens`: each token of the input, with its kind, its place and its text; or where none begins.
pub fn tokens(alloc: Global, _words: &[&str], input: &str) -> Mem<String> {
    match cedar_tokens::tokens(alloc, input) {
        Ok(found) => {
            let lexemes = lexemes(alloc, input, &found)?;
            lexemes_told(alloc, lexemes.as_slice())
        }
        Err(Failure::Refused(none)) => Ok(format!(in alloc; "no token at {}\n", none.location)?),
        Err(Failure::NoMemory) => Err(NoMemory),
    }
}

fn lexemes_told(alloc: Global, lexemes: &[Lexeme<'_>]) -> Mem<String> {
    if lexemes.is_empty() {
        return Ok(format!(in alloc; "no tokens\n")?);
    }
    let mut lines = String::new(alloc);
    for lexeme in lexemes {
        let line = lexeme_told(alloc, lexeme)?;
        lines.push_str(line.as_str())?;
    }
    Ok(lines)
}

fn lexeme_told(alloc: Global, lexeme: &Lexeme<'_>) -> Mem<String> {
    let kind = match lexeme.kind {
        TokenKind::Word => "word",
        TokenKind::Str => "literal",
        TokenKind::Punct => "mark",
    };
    Ok(format!(in alloc; "{kind} {}..{} {}\n", lexeme.start, lexeme.end, lexeme.text)?)
}
