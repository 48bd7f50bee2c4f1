// SPDX-License-Identifier: Apache-2.0
ghost use Rattle.std.specs.Prelude.{◌≡◌, ℕ, ◌<◌, ◌≤◌, length, map, IfOk, OnOk, option_map};
ghost use Rattle.cedar_names.specs.Identifiers.{id_word};
ghost use Rattle.cedar_text.specs.Lists.{elements};
ghost use Rattle.cedar_grammar.specs.Grammar.{shape_at, behind_shape};
ghost use Rattle.cedar_tree.specs.Meanings.{node_of, path_tree, context_tree, type_tree, decl_tree};
ghost use Rattle.cedar_grammar.specs.Reading.{above_at, types_at, record_or_path, shape_reader, tags_at, standard_behind, enum_behind, entity_behind, type_at};
ghost use Rattle.cedar_tree.specs.Trees.{between};
ghost use Rattle.cedar_parser.specs.Behind.{standard_parts, standard_rest, enum_end, enum_parts};
ghost use Rattle.cedar_parser.specs.Giving.{Gives, tokens_of, lexeme_node};

use crate::fault::Fault;
use crate::lists::{Idents, Literals, Paths};
use crate::tokens::{Parser, Tokens};
use cedar_data::{Boxed, Dup, Items, Mem, Out, Text};
use cedar_names::{Id, Loc, Node, NonEmpty};
use cedar_tokens::Lexeme;
use cedar_tree::{
    ContextDecl, Declaration, EntityDecl, EnumEntityDecl, Path, StandardEntityDecl, Type,
};

impl<'s> Parser<'s> {
    /// Takes the entity types after `in`, if it stands next.
    #[tactic(auto, unfolding(cedar_grammar::specs::Reading::above_at, cedar_grammar::specs::Reading::types_at))]
    fn types_above(&self, tokens: &mut Tokens<'_, '_>) -> Out<Items<Path>, Fault>
        ensures read { Gives (map path_tree)
            (tokens_of self.now.source.now tokens.new.rest.now) result
            (above_at types_at (tokens_of self.now.source.now tokens.old.rest.now)) }
        ensures shorter { OnOk result (length tokens.new.rest.now ≤ length tokens.old.rest.now) }
    {
        if let Some(_) = self.accept_keyword(tokens, "in") {
            let types = self.one_or_list::<Paths>(tokens)?;
            return Ok(self.listed(types.node)?);
        }
        Ok(Items::new(self.alloc))
    }

    /// Takes a record or a name.
    #[tactic(auto, unfolding(cedar_grammar::specs::Reading::record_or_path))]
    fn record_or_path(&self, tokens: &mut Tokens<'_, '_>) -> Out<ContextDecl, Fault>
        ensures read { (n : ℕ) → length tokens.old.rest.now < n
            → Gives context_tree (tokens_of self.now.source.now tokens.new.rest.now) result
            (record_or_path (type_at n) (tokens_of self.now.source.now tokens.old.rest.now)) }
        ensures shorter { OnOk result (length tokens.new.rest.now < length tokens.old.rest.now) }
    {
        if let Some(opening) = self.accept_mark(tokens, "{") {
            let record = self.record_behind(tokens, opening)?;
            return Ok(ContextDecl::Record(record));
        }
        let path = self.path(tokens)?;
        Ok(ContextDecl::Path(path))
    }

    /// Takes the shape of entity types, a record with or without `=` before it or a name behind `=`, if it stands next.
    #[tactic(auto, unfolding(cedar_grammar::specs::Reading::shape_reader))]
    fn shape(&self, tokens: &mut Tokens<'_, '_>) -> Out<Option<ContextDecl>, Fault>
        ensures read { (n : ℕ) → length tokens.old.rest.now < n
            → Gives (option_map context_tree)
            (tokens_of self.now.source.now tokens.new.rest.now) result
            (shape_reader (type_at n) (tokens_of self.now.source.now tokens.old.rest.now)) }
        ensures shorter { OnOk result (length tokens.new.rest.now ≤ length tokens.old.rest.now) }
    {
        if let Some(_) = self.accept_mark(tokens, "=") {
            let shape = self.record_or_path(tokens)?;
            return Ok(Some(shape));
        }
        if let Some(opening) = self.accept_mark(tokens, "{") {
            let record = self.record_behind(tokens, opening)?;
            return Ok(Some(ContextDecl::Record(record)));
        }
        Ok(None)
    }

    /// Takes `tags` and a type, if it stands next: the place of the word, and the type.
    #[tactic(auto, unfolding(cedar_grammar::specs::Reading::tags_at))]
    fn tags(&self, tokens: &mut Tokens<'_, '_>) -> Out<Option<(Loc, Boxed<Node<Type>>)>, Fault>
        ensures read { (n : ℕ) → length tokens.old.rest.now < n
            → Gives (option_map (λ p. (p.0, node_of type_tree p.1)))
            (tokens_of self.now.source.now tokens.new.rest.now) result
            (tags_at (type_at n) (tokens_of self.now.source.now tokens.old.rest.now)) }
        ensures shorter { OnOk result (length tokens.new.rest.now ≤ length tokens.old.rest.now) }
    {
        if let Some(tags) = self.accept_keyword(tokens, "tags") {
            let ty = self.type_of(tokens)?;
            let ty = Boxed::new(self.alloc, ty)?;
            let loc = self.place(tags.start, tags.end)?;
            return Ok(Some((loc, ty)));
        }
        Ok(None)
    }

    /// The shape and the type of tags that were read, where this token stands behind them.
    fn shape_and_tags(
        &self,
        shape: Option<ContextDecl>,
        tags: Option<(Loc, Boxed<Node<Type>>)>,
        behind: Lexeme<'_>,
    ) -> Mem<(ContextDecl, Option<Boxed<Node<Type>>>)>
        ensures shape { IfOk result (λ p. context_tree p.0
            ≡ shape_at (option_map context_tree shape)
            (behind_shape (option_map (λ p. (p.0, node_of type_tree p.1)) tags)
            (lexeme_node self.now.source.now behind.entry).loc)) }
        ensures tags { IfOk result (λ p. p.1 ≡ option_map (λ t. t.1) tags) }
    {
        match tags {
            None => {
                let behind = self.place(behind.start, behind.end)?;
                let attrs = self.shape_before(shape, &behind)?;
                Ok((attrs, None))
            }
            Some((loc, ty)) => {
                let attrs = self.shape_before(shape, &loc)?;
                Ok((attrs, Some(ty)))
            }
        }
    }

    /// The shape that was read; where none was, an empty record at the empty place before what stands there.
    fn shape_before(&self, shape: Option<ContextDecl>, behind: &Loc) -> Mem<ContextDecl>
        ensures { IfOk result (λ attrs. context_tree attrs
            ≡ shape_at (option_map context_tree shape) behind.now) }
    {
        if let Some(shape) = shape {
            return Ok(shape);
        }
        let src = behind.src.dup(self.alloc)?;
        let loc = Loc::new(behind.start, behind.start, src);
        Ok(ContextDecl::Record(Node {
            node: Items::new(self.alloc),
            loc,
        }))
    }

    /// The same with the place of the whole, from its word to this mark.
    fn standard_end(
        &self,
        shape: Option<ContextDecl>,
        tags: Option<(Loc, Boxed<Node<Type>>)>,
        entity: Lexeme<'_>,
        semicolon: Lexeme<'_>,
    ) -> Mem<((ContextDecl, Option<Boxed<Node<Type>>>), Loc)>
        ensures shape { IfOk result (λ p. context_tree p.0.0
            ≡ shape_at (option_map context_tree shape)
            (behind_shape (option_map (λ p. (p.0, node_of type_tree p.1)) tags)
            (lexeme_node self.now.source.now semicolon.entry).loc)) }
        ensures tags { IfOk result (λ p. p.0.1 ≡ option_map (λ t. t.1) tags) }
        ensures place { IfOk result (λ p. p.1
            ≡ between (lexeme_node self.now.source.now entity.entry).loc
            (lexeme_node self.now.source.now semicolon.entry).loc) }
    {
        let loc = self.place(entity.start, semicolon.end)?;
        let parts = self.shape_and_tags(shape, tags, semicolon)?;
        Ok((parts, loc))
    }

    /// Takes the shape and the tags of entity types as far as they stand next, and `;`: both, and the place of the
    /// whole, which begins at this word.
    #[tactic(auto, unfolding(crate::specs::Behind::standard_parts))]
    fn standard_parts<'a>(
        &self,
        tokens: &mut Tokens<'_, 'a>,
        entity: Lexeme<'a>,
    ) -> Out<((ContextDecl, Option<Boxed<Node<Type>>>), Loc), Fault>
        ensures read { (n : ℕ) → length tokens.old.rest.now < n
            → Gives (λ p. ((context_tree p.0.0, option_map (node_of type_tree) p.0.1), p.1))
            (tokens_of self.now.source.now tokens.new.rest.now) result
            (standard_parts (type_at n) (lexeme_node self.now.source.now entity.entry)
            (tokens_of self.now.source.now tokens.old.rest.now)) }
        ensures shorter { OnOk result (length tokens.new.rest.now < length tokens.old.rest.now) }
    {
        let shape = self.shape(tokens)?;
        let tags = self.tags(tokens)?;
        let semicolon = self.expect_mark(tokens, ";")?;
        Ok(self.standard_end(shape, tags, entity, semicolon)?)
    }

    /// Takes what follows the parents of entity types.
    #[tactic(auto, unfolding(crate::specs::Behind::standard_rest))]
    fn standard_rest<'a>(
        &self,
        tokens: &mut Tokens<'_, 'a>,
        entity: Lexeme<'a>,
        names: NonEmpty<Node<Id>>,
        member_of_types: Items<Path>,
    ) -> Out<Node<Declaration>, Fault>
        ensures read { (n : ℕ) → length tokens.old.rest.now < n
            → Gives (node_of decl_tree) (tokens_of self.now.source.now tokens.new.rest.now) result
            (standard_rest (type_at n) (lexeme_node self.now.source.now entity.entry)
            (map (node_of id_word) (elements names)) (map path_tree member_of_types)
            (tokens_of self.now.source.now tokens.old.rest.now)) }
        ensures shorter { OnOk result (length tokens.new.rest.now < length tokens.old.rest.now) }
    {
        let (parts, loc) = self.standard_parts(tokens, entity)?;
        let (attrs, tags) = parts;
        let decl = StandardEntityDecl {
            names,
            member_of_types,
            attrs,
            tags,
        };
        Ok(Node {
            node: Declaration::Entity(EntityDecl::Standard(decl)),
            loc,
        })
    }

    /// Takes what follows the names of entity types that are not enumerated.
    #[tactic(auto, unfolding(cedar_grammar::specs::Reading::standard_behind, crate::specs::Behind::standard_rest))]
    fn standard<'a>(
        &self,
        tokens: &mut Tokens<'_, 'a>,
        entity: Lexeme<'a>,
        names: NonEmpty<Node<Id>>,
    ) -> Out<Node<Declaration>, Fault>
        ensures read { (n : ℕ) → length tokens.old.rest.now < n
            → Gives (node_of decl_tree) (tokens_of self.now.source.now tokens.new.rest.now) result
            (standard_behind (type_at n) (lexeme_node self.now.source.now entity.entry)
            (map (node_of id_word) (elements names))
            (tokens_of self.now.source.now tokens.old.rest.now)) }
        ensures shorter { OnOk result (length tokens.new.rest.now < length tokens.old.rest.now) }
    {
        let member_of_types = self.types_above(tokens)?;
        self.standard_rest(tokens, entity, names, member_of_types)
    }

    /// Takes the `]` and the `;` behind the choices: the place of the whole, which begins at this word.
    #[tactic(auto, unfolding(crate::specs::Behind::enum_end))]
    fn enum_end<'a>(&self, tokens: &mut Tokens<'_, 'a>, entity: Lexeme<'a>) -> Out<Loc, Fault>
        ensures read { Gives (λ loc. loc) (tokens_of self.now.source.now tokens.new.rest.now) result
            (enum_end (lexeme_node self.now.source.now entity.entry)
            (tokens_of self.now.source.now tokens.old.rest.now)) }
        ensures shorter { OnOk result (length tokens.new.rest.now < length tokens.old.rest.now) }
    {
        self.expect_mark(tokens, "]")?;
        let semicolon = self.expect_mark(tokens, ";")?;
        Ok(self.place(entity.start, semicolon.end)?)
    }

    /// Takes what follows `enum`: the choices, and the place of the whole, which begins at this word.
    #[tactic(auto, unfolding(crate::specs::Behind::enum_parts))]
    fn enum_parts<'a>(
        &self,
        tokens: &mut Tokens<'_, 'a>,
        entity: Lexeme<'a>,
    ) -> Out<(NonEmpty<Node<Text>>, Loc), Fault>
        ensures read { Gives (λ p. (map (node_of (λ text. text)) (elements p.0), p.1))
            (tokens_of self.now.source.now tokens.new.rest.now) result
            (enum_parts (lexeme_node self.now.source.now entity.entry)
            (tokens_of self.now.source.now tokens.old.rest.now)) }
        ensures shorter { OnOk result (length tokens.new.rest.now < length tokens.old.rest.now) }
    {
        self.expect_mark(tokens, "[")?;
        let choices = self.commas::<Literals>(tokens)?;
        let loc = self.enum_end(tokens, entity)?;
        Ok((choices, loc))
    }

    /// Takes what follows `enum`, as a declaration of these names.
    fn enumeration<'a>(
        &self,
        tokens: &mut Tokens<'_, 'a>,
        entity: Lexeme<'a>,
        names: NonEmpty<Node<Id>>,
    ) -> Out<Node<Declaration>, Fault>
        ensures read { Gives (node_of decl_tree)
            (tokens_of self.now.source.now tokens.new.rest.now) result
            (enum_behind (lexeme_node self.now.source.now entity.entry)
            (map (node_of id_word) (elements names))
            (tokens_of self.now.source.now tokens.old.rest.now)) }
        ensures shorter { OnOk result (length tokens.new.rest.now < length tokens.old.rest.now) }
    {
        let (choices, loc) = self.enum_parts(tokens, entity)?;
        let decl = EnumEntityDecl { names, choices };
        Ok(Node {
            node: Declaration::Entity(EntityDecl::Enum(decl)),
            loc,
        })
    }

    /// Takes what follows `entity`.
    #[tactic(auto, unfolding(cedar_grammar::specs::Reading::entity_behind))]
    pub fn entity<'a>(
        &self,
        tokens: &mut Tokens<'_, 'a>,
        entity: Lexeme<'a>,
    ) -> Out<Node<Declaration>, Fault>
        ensures read { (n : ℕ) → length tokens.old.rest.now < n
            → Gives (node_of decl_tree) (tokens_of self.now.source.now tokens.new.rest.now) result
            (entity_behind (type_at n) (lexeme_node self.now.source.now entity.entry)
            (tokens_of self.now.source.now tokens.old.rest.now)) }
        ensures shorter { OnOk result (length tokens.new.rest.now < length tokens.old.rest.now) }
    {
        let names = self.commas::<Idents>(tokens)?;
        if let Some(_) = self.accept_keyword(tokens, "enum") {
            return self.enumeration(tokens, entity, names);
        }
        self.standard(tokens, entity, names)
    }
}
