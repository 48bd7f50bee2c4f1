// SPDX-License-Identifier: Apache-2.0
ghost use Rattle.std.specs.Prelude.{◌≡◌, ◌<◌, length, map, IfOk, OnOk};
ghost use Rattle.cedar_names.specs.Identifiers.{id_word};
ghost use Rattle.cedar_text.specs.Lists.{elements};
ghost use Rattle.cedar_grammar.specs.Grammar.{literal_value};
ghost use Rattle.cedar_tree.specs.Meanings.{listed, node_of, path_tree, qual_tree};
ghost use Rattle.cedar_grammar.specs.Reading.{Reader, expect, an_ident, name_at, path_at, ref_at, commas_at, brackets_behind, one_or_list_at};
ghost use Rattle.cedar_tree.specs.Trees.{Node, QualName};
ghost use Rattle.cedar_parser.specs.Giving.{Gives, tokens_of, lexeme_node};

use crate::fault::Fault;
use crate::tokens::{Parser, Tokens};
use cedar_data::{Dup, Items, Mem, Out, Text};
use cedar_names::{Id, Loc, Node as Located, NonEmpty};
use cedar_tokens::Lexeme;
use cedar_tree::{Path, QualName as Reference};
use std::marker::Model;

/// What stands in lists with commas.
pub trait Member {
    /// A member as it stands in a tree.
    type Item: Drop;

    /// What a member means at its place, for contracts alone.
    type Part;

    /// How the parser goes through a member.
    ghost reader: { Reader (Node Self.Part) };

    /// What a member means.
    ghost tree: { Self.Item → Node Self.Part };

    /// Takes a member.
    fn read(parser: &Parser<'_>, tokens: &mut Tokens<'_, '_>) -> Out<Self::Item, Fault>
        ensures read { Gives tree (tokens_of parser.now.source.now tokens.new.rest.now) result
            (reader (tokens_of parser.now.source.now tokens.old.rest.now)) }
        ensures shorter { OnOk result (length tokens.new.rest.now < length tokens.old.rest.now) };

    /// A copy of the place of a member.
    fn place(parser: &Parser<'_>, member: &Self::Item) -> Mem<Loc>
        ensures { IfOk result (λ loc. loc ≡ (tree member.now).loc) };
}

/// Identifiers.
pub struct Idents;

/// Names: words and literals.
pub struct Names;

/// Literals.
pub struct Literals;

/// Paths.
pub struct Paths;

/// References to actions.
pub struct References;

/// What a reference means.
pub struct Meant;

impl Model for Meant {
    ghost use Rattle.std.specs.Prelude.{[], None};
    ghost use Rattle.cedar_tree.specs.Trees.{QualName};

    ghost Value = { QualName };

    ghost view = { λ _. record { path = None; eid = [] } };
}

impl Member for Idents {
    type Item = Located<Id>;

    type Part = Text;

    ghost reader = { expect an_ident };

    ghost tree = { node_of id_word };

    fn read(parser: &Parser<'_>, tokens: &mut Tokens<'_, '_>) -> Out<Located<Id>, Fault> {
        parser.ident(tokens)
    }

    fn place(parser: &Parser<'_>, member: &Located<Id>) -> Mem<Loc> {
        member.loc.dup(parser.alloc)
    }
}

impl Member for Names {
    type Item = Located<Text>;

    type Part = Text;

    ghost reader = { name_at };

    ghost tree = { λ text. text };

    fn read(parser: &Parser<'_>, tokens: &mut Tokens<'_, '_>) -> Out<Located<Text>, Fault> {
        parser.name(tokens)
    }

    fn place(parser: &Parser<'_>, member: &Located<Text>) -> Mem<Loc> {
        member.loc.dup(parser.alloc)
    }
}

impl Member for Literals {
    type Item = Located<Text>;

    type Part = Text;

    ghost reader = { expect literal_value };

    ghost tree = { λ text. text };

    fn read(parser: &Parser<'_>, tokens: &mut Tokens<'_, '_>) -> Out<Located<Text>, Fault> {
        parser.literal(tokens)
    }

    fn place(parser: &Parser<'_>, member: &Located<Text>) -> Mem<Loc> {
        member.loc.dup(parser.alloc)
    }
}

impl Member for Paths {
    type Item = Path;

    type Part = Items<Text>;

    ghost reader = { path_at };

    ghost tree = { path_tree };

    fn read(parser: &Parser<'_>, tokens: &mut Tokens<'_, '_>) -> Out<Path, Fault> {
        parser.path(tokens)
    }

    fn place(parser: &Parser<'_>, member: &Path) -> Mem<Loc> {
        member.loc().dup(parser.alloc)
    }
}

impl Member for References {
    type Item = Located<Reference>;

    type Part = Meant;

    ghost reader = { ref_at };

    ghost tree = { node_of qual_tree };

    fn read(parser: &Parser<'_>, tokens: &mut Tokens<'_, '_>) -> Out<Located<Reference>, Fault> {
        parser.reference(tokens)
    }

    fn place(parser: &Parser<'_>, member: &Located<Reference>) -> Mem<Loc> {
        member.loc.dup(parser.alloc)
    }
}

impl<'s> Parser<'s> {
    /// Takes members with commas between.
    pub fn commas<M: Member>(&self, tokens: &mut Tokens<'_, '_>) -> Out<NonEmpty<M::Item>, Fault>
        ensures read { Gives (λ members. map M.tree (elements members))
            (tokens_of self.now.source.now tokens.new.rest.now) result
            (commas_at M.reader (tokens_of self.now.source.now tokens.old.rest.now)) }
        ensures shorter { OnOk result (length tokens.new.rest.now < length tokens.old.rest.now) }
    {
        let head = M::read(self, tokens)?;
        let mut tail = Items::new(self.alloc);
        'members: while let Some(_) = self.accept_mark(tokens, ",") {
            let member = M::read(self, tokens)?;
            tail.push(member)?;
        }
        Ok(NonEmpty { head, tail })
    }

    /// The members of a list that may be left out.
    pub fn listed<T: Drop>(&self, members: Option<NonEmpty<T>>) -> Mem<Items<T>>
        ensures { IfOk result (λ items. items ≡ listed members) }
    {
        let Some(NonEmpty { head, tail }) = members else {
            return Ok(Items::new(self.alloc));
        };
        let mut items = tail.into_vec();
        items.insert(0, head)?;
        Ok(Items::from_vec(items))
    }

    /// Takes what follows `[`: members with commas between, or none, and `]`.
    #[tactic(auto, unfolding(cedar_grammar::specs::Reading::brackets_behind))]
    fn brackets<'a, M: Member>(
        &self,
        tokens: &mut Tokens<'_, 'a>,
        opening: Lexeme<'a>,
    ) -> Out<Located<Option<NonEmpty<M::Item>>>, Fault>
        ensures read { Gives (node_of (λ members. map M.tree (listed members)))
            (tokens_of self.now.source.now tokens.new.rest.now) result
            (brackets_behind M.reader (lexeme_node self.now.source.now opening.entry)
            (tokens_of self.now.source.now tokens.old.rest.now)) }
        ensures shorter { OnOk result (length tokens.new.rest.now < length tokens.old.rest.now) }
    {
        if let Some(closing) = self.accept_mark(tokens, "]") {
            let loc = self.place(opening.start, closing.end)?;
            return Ok(Located { node: None, loc });
        }
        let members = self.commas::<M>(tokens)?;
        let closing = self.expect_mark(tokens, "]")?;
        let loc = self.place(opening.start, closing.end)?;
        Ok(Located {
            node: Some(members),
            loc,
        })
    }

    /// Takes a list in brackets, which may be empty, or one member.
    #[tactic(auto, unfolding(cedar_grammar::specs::Reading::one_or_list_at))]
    pub fn one_or_list<M: Member>(
        &self,
        tokens: &mut Tokens<'_, '_>,
    ) -> Out<Located<Option<NonEmpty<M::Item>>>, Fault>
        ensures read { Gives (node_of (λ members. map M.tree (listed members)))
            (tokens_of self.now.source.now tokens.new.rest.now) result
            (one_or_list_at M.reader (tokens_of self.now.source.now tokens.old.rest.now)) }
        ensures shorter { OnOk result (length tokens.new.rest.now < length tokens.old.rest.now) }
    {
        if let Some(opening) = self.accept_mark(tokens, "[") {
            return self.brackets::<M>(tokens, opening);
        }
        let member = M::read(self, tokens)?;
        let loc = M::place(self, &member)?;
        let members = NonEmpty::singleton(self.alloc, member);
        Ok(Located {
            node: Some(members),
            loc,
        })
    }
}
