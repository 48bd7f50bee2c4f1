// SPDX-License-Identifier: Apache-2.0
ghost use Rattle.std.specs.Prelude.{◌≡◌, ◌<◌, length, Ok, IfOk, IfSome, IfNone, OnOk, option_map};
ghost use Rattle.cedar_names.specs.Identifiers.{id_word};
ghost use Rattle.std.specs.Option.{option_and_then};
ghost use Rattle.std.specs.Str.{bytes_eq};
ghost use Rattle.cedar_grammar.specs.Grammar.{literal_body, literal_value, text_of_body};
ghost use Rattle.cedar_tree.specs.Meanings.{node_of};
ghost use Rattle.cedar_grammar.specs.Reading.{accepted, expect, a_keyword, a_mark, an_ident, name_at};
ghost use Rattle.cedar_tree.specs.Trees.{between};
ghost use Rattle.cedar_parser.specs.Giving.{Gives, tokens_of, lexeme_node, place_from};

use crate::fault::{Fault, stops_before};
use crate::literals::literal_body;
use cedar_data::{Dup, Failure, Mem, NoMemory, Out, Text};
use cedar_names::{Id, Loc, Node};
use cedar_text::unescape;
use cedar_tokens::{Lexeme, TokenKind};
use std::alloc::Global;

/// What all steps of the parser share: where their memory comes from, and the text in which the tokens stand.
#[derive(Drop)]
pub struct Parser<'s> {
    pub alloc: Global,
    pub source: &'s Text,
}

/// The tokens that are left.
#[derive(Drop)]
pub struct Tokens<'t, 'a> {
    pub rest: &'t [Lexeme<'a>],
}

/// Whether a text is this word. The words of the grammar are short, so that they are compared byte by byte.
fn is_same(text: &str, word: &str) -> bool
    ensures { result ≡ bytes_eq text.now word.now }
{
    let (text, word) = (text.as_bytes(), word.as_bytes());
    if text.len() != word.len() {
        return false;
    }
    for at in 0..word.len() {
        if text[at] != word[at] {
            return false;
        }
    }
    true
}

impl<'s> Parser<'s> {
    /// The place between two byte offsets of the source.
    pub fn place(&self, start: usize, end: usize) -> Mem<Loc>
        ensures { IfOk result (λ loc. loc ≡ place_from self.now.source.now start end) }
    {
        let src = self.source.dup(self.alloc)?;
        Ok(Loc::new(start, end, src))
    }

    /// The place from the start of a piece to the end of another.
    pub fn between(&self, first: &Loc, last: &Loc) -> Mem<Loc>
        ensures { IfOk result (λ loc. loc ≡ between first.now last.now) }
    {
        let src = first.src.dup(self.alloc)?;
        Ok(Loc::new(first.start, last.end, src))
    }

    /// Takes the next token if it is this word.
    #[tactic(auto, unfolding(cedar_grammar::specs::Reading::accepted))]
    pub fn accept_keyword<'a>(&self, tokens: &mut Tokens<'_, 'a>, word: &str) -> Option<Lexeme<'a>>
        ensures read { option_map
            (λ l. (
              lexeme_node self.now.source.now l,
              tokens_of self.now.source.now tokens.new.rest.now,
            )) result
            ≡ accepted (a_keyword word.now) (tokens_of self.now.source.now tokens.old.rest.now) }
        ensures word { IfSome result (λ l. l.text.now ≡ word.now) }
        ensures shorter { IfSome result
            (λ _. length tokens.new.rest.now < length tokens.old.rest.now) }
        ensures kept { IfNone result (tokens.new.rest.now ≡ tokens.old.rest.now) }
    {
        let rest = tokens.rest;
        if rest.is_empty() || rest[0].kind != TokenKind::Word || !is_same(rest[0].text, word) {
            return None;
        }
        tokens.rest = &rest[1..];
        Some(rest[0])
    }

    /// Takes the next token if it is this mark.
    #[tactic(auto, unfolding(cedar_grammar::specs::Reading::accepted))]
    pub fn accept_mark<'a>(&self, tokens: &mut Tokens<'_, 'a>, mark: &str) -> Option<Lexeme<'a>>
        ensures read { option_map
            (λ l. (
              lexeme_node self.now.source.now l,
              tokens_of self.now.source.now tokens.new.rest.now,
            )) result
            ≡ accepted (a_mark mark.now) (tokens_of self.now.source.now tokens.old.rest.now) }
        ensures shorter { IfSome result
            (λ _. length tokens.new.rest.now < length tokens.old.rest.now) }
        ensures kept { IfNone result (tokens.new.rest.now ≡ tokens.old.rest.now) }
    {
        let rest = tokens.rest;
        if rest.is_empty() || rest[0].kind != TokenKind::Punct || !is_same(rest[0].text, mark) {
            return None;
        }
        tokens.rest = &rest[1..];
        Some(rest[0])
    }

    /// Takes the next token, which is to be this word.
    pub fn expect_keyword<'a>(
        &self,
        tokens: &mut Tokens<'_, 'a>,
        word: &str,
    ) -> Out<Lexeme<'a>, Fault>
        ensures read { Gives (lexeme_node self.now.source.now)
            (tokens_of self.now.source.now tokens.new.rest.now) result
            (expect (a_keyword word.now) (tokens_of self.now.source.now tokens.old.rest.now)) }
        ensures shorter { OnOk result (length tokens.new.rest.now < length tokens.old.rest.now) }
    {
        let Some(token) = self.accept_keyword(tokens, word) else {
            return Err(stops_before(tokens.rest));
        };
        Ok(token)
    }

    /// Takes the next token, which is to be this mark.
    pub fn expect_mark<'a>(&self, tokens: &mut Tokens<'_, 'a>, mark: &str) -> Out<Lexeme<'a>, Fault>
        ensures read { Gives (lexeme_node self.now.source.now)
            (tokens_of self.now.source.now tokens.new.rest.now) result
            (expect (a_mark mark.now) (tokens_of self.now.source.now tokens.old.rest.now)) }
        ensures shorter { OnOk result (length tokens.new.rest.now < length tokens.old.rest.now) }
    {
        let Some(token) = self.accept_mark(tokens, mark) else {
            return Err(stops_before(tokens.rest));
        };
        Ok(token)
    }

    /// Takes the next token if it is an identifier.
    #[tactic(auto, unfolding(cedar_grammar::specs::Reading::accepted))]
    pub fn accept_ident(&self, tokens: &mut Tokens<'_, '_>) -> Mem<Option<Node<Id>>>
        ensures read { IfOk result
            (λ found.
            option_map
            (λ id. (node_of id_word id, tokens_of self.now.source.now tokens.new.rest.now)) found
            ≡ accepted an_ident (tokens_of self.now.source.now tokens.old.rest.now)) }
        ensures shorter { IfOk result
            (λ found. IfSome found (λ _. length tokens.new.rest.now < length tokens.old.rest.now)) }
        ensures kept { IfOk result (λ found. IfNone found (tokens.new.rest.now
            ≡ tokens.old.rest.now)) }
    {
        let rest = tokens.rest;
        if rest.is_empty() || rest[0].kind != TokenKind::Word {
            return Ok(None);
        }
        let Some(node) = Id::beside(self.alloc, self.source, rest[0].text)? else {
            return Ok(None);
        };
        let loc = self.place(rest[0].start, rest[0].end)?;
        tokens.rest = &rest[1..];
        Ok(Some(Node { node, loc }))
    }

    /// Takes an identifier.
    pub fn ident(&self, tokens: &mut Tokens<'_, '_>) -> Out<Node<Id>, Fault>
        ensures read { Gives (node_of id_word)
            (tokens_of self.now.source.now tokens.new.rest.now) result
            (expect an_ident (tokens_of self.now.source.now tokens.old.rest.now)) }
        ensures shorter { OnOk result (length tokens.new.rest.now < length tokens.old.rest.now) }
    {
        let Some(id) = self.accept_ident(tokens)? else {
            return Err(stops_before(tokens.rest));
        };
        Ok(id)
    }

    /// What a literal stands for, if its escapes are good.
    fn value(&self, text: &str) -> Mem<Option<Text>>
        ensures { IfOk result (λ value. value
            ≡ option_and_then text_of_body (literal_body text.now)) }
    {
        let Some(body) = literal_body(text) else {
            return Ok(None);
        };
        if !body.as_bytes().contains(&b'\\') {
            let value = self.source.beside(self.alloc, body)?;
            return Ok(Some(value));
        }
        match unescape(self.alloc, body) {
            Ok(value) => {
                let value = self.source.beside(self.alloc, value.as_str())?;
                Ok(Some(value))
            }
            Err(Failure::Refused(_)) => Ok(None),
            Err(Failure::NoMemory) => Err(NoMemory),
        }
    }

    /// Takes the next token if it is a literal whose escapes are good, and gives what it stands for.
    #[tactic(auto, unfolding(cedar_grammar::specs::Reading::accepted))]
    pub fn accept_literal(&self, tokens: &mut Tokens<'_, '_>) -> Mem<Option<Node<Text>>>
        ensures read { IfOk result
            (λ found.
            option_map (λ text. (text, tokens_of self.now.source.now tokens.new.rest.now)) found
            ≡ accepted literal_value (tokens_of self.now.source.now tokens.old.rest.now)) }
        ensures shorter { IfOk result
            (λ found. IfSome found (λ _. length tokens.new.rest.now < length tokens.old.rest.now)) }
        ensures kept { IfOk result (λ found. IfNone found (tokens.new.rest.now
            ≡ tokens.old.rest.now)) }
    {
        let rest = tokens.rest;
        if rest.is_empty() || rest[0].kind != TokenKind::Str {
            return Ok(None);
        }
        let Some(node) = self.value(rest[0].text)? else {
            return Ok(None);
        };
        let loc = self.place(rest[0].start, rest[0].end)?;
        tokens.rest = &rest[1..];
        Ok(Some(Node { node, loc }))
    }

    /// Takes a literal, and gives what it stands for.
    pub fn literal(&self, tokens: &mut Tokens<'_, '_>) -> Out<Node<Text>, Fault>
        ensures read { Gives (λ text. text)
            (tokens_of self.now.source.now tokens.new.rest.now) result
            (expect literal_value (tokens_of self.now.source.now tokens.old.rest.now)) }
        ensures shorter { OnOk result (length tokens.new.rest.now < length tokens.old.rest.now) }
    {
        let Some(text) = self.accept_literal(tokens)? else {
            return Err(stops_before(tokens.rest));
        };
        Ok(text)
    }

    /// Takes a name: a word, or what a literal stands for.
    #[tactic(auto, unfolding(cedar_grammar::specs::Reading::name_at, cedar_grammar::specs::Reading::accepted))]
    pub fn name(&self, tokens: &mut Tokens<'_, '_>) -> Out<Node<Text>, Fault>
        ensures read { Gives (λ text. text)
            (tokens_of self.now.source.now tokens.new.rest.now) result
            (name_at (tokens_of self.now.source.now tokens.old.rest.now)) }
        ensures shorter { OnOk result (length tokens.new.rest.now < length tokens.old.rest.now) }
    {
        if let Some(text) = self.accept_literal(tokens)? {
            return Ok(text);
        }
        let rest = tokens.rest;
        if rest.is_empty() || rest[0].kind != TokenKind::Word {
            return Err(stops_before(rest));
        }
        let node = self.source.beside(self.alloc, rest[0].text)?;
        let loc = self.place(rest[0].start, rest[0].end)?;
        tokens.rest = &rest[1..];
        Ok(Node { node, loc })
    }
}
