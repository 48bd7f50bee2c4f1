// SPDX-License-Identifier: Apache-2.0
ghost use Rattle.std.specs.Prelude.{◌≡◌, ℕ, ◌<◌, [], length, map, Some, IfOk, OnOk};
ghost use Rattle.cedar_grammar.specs.Grammar.{alone};
ghost use Rattle.cedar_tree.specs.Meanings.{node_of, path_tree, decl_tree, annotations_tree, annotated_tree, namespace_tree, schema_tree};
ghost use Rattle.cedar_grammar.specs.Reading.{type_behind, decl_at, annotated_at, namespace_behind, item_at, schema_at, type_at};
ghost use Rattle.cedar_parser.specs.Behind.{decls_behind, annotated_item};
ghost use Rattle.cedar_parser.specs.Giving.{Gives, tokens_of, lexeme_node, place_from};

use crate::fault::Fault;
use crate::tokens::{Parser, Tokens};
use cedar_data::{Items, Mem, Out};
use cedar_names::{Annotations, Node};
use cedar_tokens::Lexeme;
use cedar_tree::{Annotated, Declaration, Namespace, Path, Schema, TypeDecl};

impl<'s> Parser<'s> {
    /// Takes what follows `type`.
    #[tactic(auto, unfolding(cedar_grammar::specs::Reading::type_behind))]
    fn common<'a>(
        &self,
        tokens: &mut Tokens<'_, 'a>,
        keyword: Lexeme<'a>,
    ) -> Out<Node<Declaration>, Fault>
        ensures read { (n : ℕ) → length tokens.old.rest.now < n
            → Gives (node_of decl_tree) (tokens_of self.now.source.now tokens.new.rest.now) result
            (type_behind (type_at n) (lexeme_node self.now.source.now keyword.entry)
            (tokens_of self.now.source.now tokens.old.rest.now)) }
        ensures shorter { OnOk result (length tokens.new.rest.now < length tokens.old.rest.now) }
    {
        let name = self.ident(tokens)?;
        self.expect_mark(tokens, "=")?;
        let def = self.type_of(tokens)?;
        let semicolon = self.expect_mark(tokens, ";")?;
        let loc = self.place(keyword.start, semicolon.end)?;
        Ok(Node {
            node: Declaration::Common(TypeDecl { name, def }),
            loc,
        })
    }

    /// Takes a declaration.
    #[tactic(auto, unfolding(cedar_grammar::specs::Reading::decl_at))]
    fn declaration(&self, tokens: &mut Tokens<'_, '_>) -> Out<Node<Declaration>, Fault>
        ensures read { (n : ℕ) → length tokens.old.rest.now < n
            → Gives (node_of decl_tree) (tokens_of self.now.source.now tokens.new.rest.now) result
            (decl_at (type_at n) (tokens_of self.now.source.now tokens.old.rest.now)) }
        ensures shorter { OnOk result (length tokens.new.rest.now < length tokens.old.rest.now) }
    {
        if let Some(entity) = self.accept_keyword(tokens, "entity") {
            return self.entity(tokens, entity);
        }
        if let Some(action) = self.accept_keyword(tokens, "action") {
            return self.action(tokens, action);
        }
        let keyword = self.expect_keyword(tokens, "type")?;
        self.common(tokens, keyword)
    }

    /// Takes a declaration with its annotations.
    #[tactic(auto, unfolding(cedar_grammar::specs::Reading::annotated_at))]
    fn annotated_declaration(
        &self,
        tokens: &mut Tokens<'_, '_>,
    ) -> Out<Annotated<Node<Declaration>>, Fault>
        ensures read { (n : ℕ) → length tokens.old.rest.now < n
            → Gives (annotated_tree (node_of decl_tree))
            (tokens_of self.now.source.now tokens.new.rest.now) result
            (annotated_at (decl_at (type_at n))
            (tokens_of self.now.source.now tokens.old.rest.now)) }
        ensures shorter { OnOk result (length tokens.new.rest.now < length tokens.old.rest.now) }
    {
        let annotations = self.annotations(tokens)?;
        let item = self.declaration(tokens)?;
        Ok(Annotated { item, annotations })
    }

    /// The namespace of this name with these declarations, from its word to its `}`.
    fn namespace_of(
        &self,
        keyword: Lexeme<'_>,
        name: Path,
        decls: Items<Annotated<Node<Declaration>>>,
        closing: Lexeme<'_>,
    ) -> Mem<Namespace>
        ensures { IfOk result (λ namespace. namespace_tree namespace ≡ record {
          name = Some (path_tree name);
          decls = map (annotated_tree (node_of decl_tree)) decls;
          loc = Some (place_from self.now.source.now keyword.entry.start closing.entry.end);
        }) }
    {
        let loc = Some(self.place(keyword.start, closing.end)?);
        let name = Some(name);
        Ok(Namespace { name, decls, loc })
    }

    /// Takes the declarations of a namespace, behind `{`, and `}`.
    #[tactic(auto, unfolding(crate::specs::Behind::decls_behind))]
    fn namespace_body<'a>(
        &self,
        tokens: &mut Tokens<'_, 'a>,
        keyword: Lexeme<'a>,
        name: Path,
    ) -> Out<Namespace, Fault>
        ensures read { (n : ℕ) → length tokens.old.rest.now < n
            → Gives namespace_tree (tokens_of self.now.source.now tokens.new.rest.now) result
            (decls_behind (type_at n) (lexeme_node self.now.source.now keyword.entry)
            (path_tree name) (tokens_of self.now.source.now tokens.old.rest.now)) }
        ensures shorter { OnOk result (length tokens.new.rest.now < length tokens.old.rest.now) }
    {
        let mut decls = Items::new(self.alloc);
        'decls: loop {
            if let Some(closing) = self.accept_mark(tokens, "}") {
                return Ok(self.namespace_of(keyword, name, decls, closing)?);
            }
            let decl = self.annotated_declaration(tokens)?;
            decls.push(decl)?;
        }
    }

    /// Takes what follows `namespace`.
    #[tactic(auto, unfolding(cedar_grammar::specs::Reading::namespace_behind, crate::specs::Behind::decls_behind))]
    fn namespace<'a>(
        &self,
        tokens: &mut Tokens<'_, 'a>,
        keyword: Lexeme<'a>,
    ) -> Out<Namespace, Fault>
        ensures read { (n : ℕ) → length tokens.old.rest.now < n
            → Gives namespace_tree (tokens_of self.now.source.now tokens.new.rest.now) result
            (namespace_behind (type_at n) (lexeme_node self.now.source.now keyword.entry)
            (tokens_of self.now.source.now tokens.old.rest.now)) }
        ensures shorter { OnOk result (length tokens.new.rest.now < length tokens.old.rest.now) }
    {
        let name = self.path(tokens)?;
        self.expect_mark(tokens, "{")?;
        self.namespace_body(tokens, keyword, name)
    }

    /// The declaration in a namespace of its own, without name and annotations.
    fn alone(&self, item: Node<Declaration>, annotations: Annotations) -> Mem<Annotated<Namespace>>
        ensures { IfOk result (λ namespace. annotated_tree namespace_tree namespace
            ≡ alone (annotations_tree annotations) (node_of decl_tree item)) }
    {
        // Room for one: a text may have many of these, and an empty list would take room for four.
        let mut decls = Vec::with_capacity(self.alloc, 1)?;
        decls.push(Annotated { item, annotations })?;
        Ok(Annotated {
            item: Namespace {
                name: None,
                decls: Items::from_vec(decls),
                loc: None,
            },
            annotations: Annotations::new(self.alloc),
        })
    }

    /// Takes a namespace, or a declaration that stands in none, behind these annotations.
    #[tactic(auto, unfolding(cedar_grammar::specs::Reading::item_at))]
    fn item(
        &self,
        tokens: &mut Tokens<'_, '_>,
        annotations: Annotations,
    ) -> Out<Annotated<Namespace>, Fault>
        ensures read { (n : ℕ) → length tokens.old.rest.now < n
            → Gives (annotated_tree namespace_tree)
            (tokens_of self.now.source.now tokens.new.rest.now) result
            (item_at (type_at n) (annotations_tree annotations)
            (tokens_of self.now.source.now tokens.old.rest.now)) }
        ensures shorter { OnOk result (length tokens.new.rest.now < length tokens.old.rest.now) }
    {
        if let Some(keyword) = self.accept_keyword(tokens, "namespace") {
            let item = self.namespace(tokens, keyword)?;
            return Ok(Annotated { item, annotations });
        }
        let decl = self.declaration(tokens)?;
        Ok(self.alone(decl, annotations)?)
    }

    /// Takes a namespace or a declaration with its annotations.
    #[tactic(auto, unfolding(crate::specs::Behind::annotated_item))]
    fn annotated_item(&self, tokens: &mut Tokens<'_, '_>) -> Out<Annotated<Namespace>, Fault>
        ensures read { (n : ℕ) → length tokens.old.rest.now < n
            → Gives (annotated_tree namespace_tree)
            (tokens_of self.now.source.now tokens.new.rest.now) result
            (annotated_item (type_at n) (tokens_of self.now.source.now tokens.old.rest.now)) }
        ensures shorter { OnOk result (length tokens.new.rest.now < length tokens.old.rest.now) }
    {
        let annotations = self.annotations(tokens)?;
        self.item(tokens, annotations)
    }

    /// Takes namespaces and declarations up to the end of the tokens.
    pub fn schema(&self, tokens: &mut Tokens<'_, '_>) -> Out<Schema, Fault>
        ensures { Gives schema_tree [] result
            (schema_at (tokens_of self.now.source.now tokens.old.rest.now)) }
    {
        let mut items = Items::new(self.alloc);
        'items: while !tokens.rest.is_empty() {
            let item = self.annotated_item(tokens)?;
            items.push(item)?;
        }
        Ok(items)
    }
}
