// SPDX-License-Identifier: Apache-2.0
use crate::{
    closure, escape, extensions, literal, name, order, qualify, snippet, tokens, uid, unescape,
};
use cedar_data::Mem;
use std::alloc::Global;

/// What is asked of a text.
#[derive(Clone, Copy)]
enum Verb {
    Closure,
    Escape,
    Extensions,
    Literal,
    Name,
    Order,
    Qualify,
    Snippet,
    Tokens,
    Uid,
    Unescape,
}

impl Verb {
    /// The verb of this name.
    fn named(word: &str) -> Option<Verb> {
        match word {
            "closure" => Some(Verb::Closure),
            "escape" => Some(Verb::Escape),
            "extensions" => Some(Verb::Extensions),
            "literal" => Some(Verb::Literal),
            "name" => Some(Verb::Name),
            "order" => Some(Verb::Order),
            "qualify" => Some(Verb::Qualify),
            "snippet" => Some(Verb::Snippet),
            "tokens" => Some(Verb::Tokens),
            "uid" => Some(Verb::Uid),
            "unescape" => Some(Verb::Unescape),
            _ => None,
        }
    }

    /// What the verb answers.
    fn lines(self, alloc: Global, words: &[&str], input: &str) -> Mem<String> {
        match self {
            Verb::Closure => closure(alloc, words, input),
            Verb::Escape => escape(alloc, words, input),
            Verb::Extensions => extensions(alloc, words, input),
            Verb::Literal => literal(alloc, words, input),
            Verb::Name => name(alloc, words, input),
            Verb::Order => order(alloc, words, input),
            Verb::Qualify => qualify(alloc, words, input),
            Verb::Snippet => snippet(alloc, words, input),
            Verb::Tokens => tokens(alloc, words, input),
            Verb::Uid => uid(alloc, words, input),
            Verb::Unescape => unescape(alloc, words, input),
        }
    }
}

/// What the verb of this name answers an input, with the words behind the verb: lines, each ended by a line feed. None
/// where no verb has this name.
pub fn answer(alloc: Global, verb: &str, words: &[&str], input: &str) -> Mem<Option<String>> {
    let Some(verb) = Verb::named(verb) else {
        return Ok(None);
    };
    let lines = verb.lines(alloc, words, input)?;
    Ok(Some(lines))
}
