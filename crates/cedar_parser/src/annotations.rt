// SPDX-License-Identifier: Apache-2.0
ghost use Rattle.std.specs.Prelude.{◌≡◌, ◌<◌, ◌≤◌, length, not, IfOk, OnOk};
ghost use Rattle.std.specs.BTreeMap.{insert_entry};
ghost use Rattle.cedar_data.specs.Sets.{Adds};
ghost use Rattle.cedar_text.specs.Words.{has_word};
ghost use Rattle.cedar_names.specs.Annotating.{annotation_entries, any_cmp};
ghost use Rattle.cedar_names.specs.Identifiers.{any_word};
ghost use Rattle.cedar_grammar.specs.Grammar.{annotation_of, is_new_key, keys_of, text_where};
ghost use Rattle.cedar_tree.specs.Meanings.{annotations_tree, node_of};
ghost use Rattle.cedar_grammar.specs.Reading.{annotation_behind, annots_at, expect, value_at};
ghost use Rattle.cedar_tree.specs.Trees.{Annotations as Written};
ghost use Rattle.cedar_parser.specs.Giving.{Gives, tokens_of, lexeme_node};
ghost use Rattle.cedar_parser.specs.Keys.{HaveKeys, annotation_node};

use crate::fault::{Fault, stops_before};
use crate::tokens::{Parser, Tokens};
use cedar_data::{Dup, Mem, Out, Set, Text};
use cedar_names::{Annotation, Annotations, AnyId, Node};
use cedar_tokens::{Lexeme, TokenKind};

/// Whether a key is none of these.
fn is_new(keys: &Set<AnyId>, key: &AnyId) -> bool
    ensures { (before : Written) → HaveKeys keys.now before
        → result ≡ not (has_word (keys_of before) (any_word key.now)) }
{
    !keys.contains(key)
}

impl<'s> Parser<'s> {
    /// Takes annotations, as many as there are, whose keys are all different.
    pub fn annotations(&self, tokens: &mut Tokens<'_, '_>) -> Out<Annotations, Fault>
        ensures read { Gives annotations_tree
            (tokens_of self.now.source.now tokens.new.rest.now) result
            (annots_at (tokens_of self.now.source.now tokens.old.rest.now)) }
        ensures shorter { OnOk result (length tokens.new.rest.now ≤ length tokens.old.rest.now) }
    {
        let mut found = Annotations::new(self.alloc);
        let mut keys = Set::new(self.alloc);
        'annotations: while let Some(at) = self.accept_mark(tokens, "@") {
            let (key, annotation) = self.annotation(tokens, &keys, at)?;
            self.note(&mut keys, &mut found, key, annotation)?;
        }
        Ok(found)
    }

    /// Puts an annotation to those that were found, and its key to their keys.
    fn note(
        &self,
        keys: &mut Set<AnyId>,
        found: &mut Annotations,
        key: AnyId,
        annotation: Annotation,
    ) -> Mem<()>
        ensures keys { OnOk result (Adds any_cmp keys.old keys.new key) }
        ensures found { OnOk result (annotation_entries found.new
            ≡ insert_entry any_cmp (annotation_entries found.old) key annotation) }
    {
        let copy = key.dup(self.alloc)?;
        keys.insert(copy)?;
        found.insert(key, annotation)?;
        Ok(())
    }

    /// Takes what follows the `@` of an annotation, whose key is to be none of these.
    #[tactic(auto, unfolding(cedar_grammar::specs::Reading::annotation_behind))]
    fn annotation<'a>(
        &self,
        tokens: &mut Tokens<'_, 'a>,
        keys: &Set<AnyId>,
        at: Lexeme<'a>,
    ) -> Out<(AnyId, Annotation), Fault>
        ensures read { (before : Written) → HaveKeys keys.now before
            → Gives annotation_node (tokens_of self.now.source.now tokens.new.rest.now) result
            (annotation_behind before (lexeme_node self.now.source.now at.entry)
            (tokens_of self.now.source.now tokens.old.rest.now)) }
        ensures shorter { OnOk result (length tokens.new.rest.now < length tokens.old.rest.now) }
    {
        let key = self.key(tokens, keys)?;
        let value = self.annotation_value(tokens)?;
        Ok(self.annotation_of(at, key, value)?)
    }

    /// The annotation of this key that begins here, whose value is empty where none was read.
    fn annotation_of(
        &self,
        at: Lexeme<'_>,
        key: Node<AnyId>,
        value: Option<Node<Node<Text>>>,
    ) -> Mem<(AnyId, Annotation)>
        ensures { IfOk result (λ annotation. annotation_node annotation
            ≡ annotation_of (lexeme_node self.now.source.now at.entry).loc
            (node_of any_word key) value) }
    {
        let Node { node: key, loc } = key;
        let Some(Node { node: literal, loc }) = value else {
            let val = self.source.beside(self.alloc, "")?;
            let loc = Some(self.place(at.start, loc.end)?);
            return Ok((key, Annotation { val, loc }));
        };
        let val = literal.node;
        let loc = Some(self.place(at.start, loc.end)?);
        Ok((key, Annotation { val, loc }))
    }

    /// Takes the key of an annotation: a word that is none of these keys.
    #[tactic(auto, unfolding(cedar_grammar::specs::Reading::accepted))]
    fn key(&self, tokens: &mut Tokens<'_, '_>, keys: &Set<AnyId>) -> Out<Node<AnyId>, Fault>
        ensures read { (before : Written) → HaveKeys keys.now before
            → Gives (node_of any_word) (tokens_of self.now.source.now tokens.new.rest.now) result
            (expect (text_where (is_new_key before))
            (tokens_of self.now.source.now tokens.old.rest.now)) }
        ensures shorter { OnOk result (length tokens.new.rest.now < length tokens.old.rest.now) }
    {
        let rest = tokens.rest;
        if rest.is_empty() || rest[0].kind != TokenKind::Word {
            return Err(stops_before(rest));
        }
        let Some(node) = AnyId::new(self.alloc, rest[0].text)? else {
            return Err(stops_before(rest));
        };
        if !is_new(keys, &node) {
            return Err(stops_before(rest));
        }
        let loc = self.place(rest[0].start, rest[0].end)?;
        tokens.rest = &rest[1..];
        Ok(Node { node, loc })
    }

    /// Takes the value of an annotation with its brackets, if there is one.
    #[tactic(auto, unfolding(cedar_grammar::specs::Reading::value_at))]
    fn annotation_value(&self, tokens: &mut Tokens<'_, '_>) -> Out<Option<Node<Node<Text>>>, Fault>
        ensures read { Gives (λ value. value)
            (tokens_of self.now.source.now tokens.new.rest.now) result
            (value_at (tokens_of self.now.source.now tokens.old.rest.now)) }
        ensures shorter { OnOk result (length tokens.new.rest.now ≤ length tokens.old.rest.now) }
    {
        let Some(opening) = self.accept_mark(tokens, "(") else {
            return Ok(None);
        };
        let node = self.literal(tokens)?;
        let closing = self.expect_mark(tokens, ")")?;
        let loc = self.place(opening.start, closing.end)?;
        Ok(Some(Node { node, loc }))
    }
}
