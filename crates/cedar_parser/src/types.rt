// SPDX-License-Identifier: Apache-2.0
ghost use Rattle.std.specs.Prelude.{◌≡◌, ◌<◌, ◌≤◌, ℕ, codes, length, map, Ok, IfOk, OnOk};
ghost use Rattle.cedar_names.specs.Identifiers.{id_word};
ghost use Rattle.cedar_grammar.specs.Grammar.{as_name, attr_of};
ghost use Rattle.cedar_tree.specs.Meanings.{annotations_tree, attr_node, attr_tree, attrs_tree, node_of, path_tree, type_tree};
ghost use Rattle.cedar_grammar.specs.Reading.{attr_at, braced_at, question_at, record_behind, set_behind, type_at};
ghost use Rattle.cedar_tree.specs.Trees.{Set, placed};
ghost use Rattle.cedar_parser.specs.Behind.{name_behind};
ghost use Rattle.cedar_parser.specs.Giving.{Gives, tokens_of, lexeme_node};

use crate::fault::Fault;
use crate::tokens::{Parser, Tokens};
use cedar_data::{Boxed, Dup, Items, Mem, Out, Text};
use cedar_names::{Annotations, Id, Node};
use cedar_tokens::Lexeme;
use cedar_tree::{Annotated, AttrDecl, Path, Type};

/// An attribute with its annotations, at its place.
pub type Attribute = Node<Annotated<AttrDecl>>;

impl<'s> Parser<'s> {
    /// Takes a type.
    #[cycle(parser)]
    #[tactic(auto, using(crate::proofs::TypeTrees::tree_of_record), unfolding(cedar_grammar::specs::Reading::type_at))]
    pub fn type_of(&self, tokens: &mut Tokens<'_, '_>) -> Out<Node<Type>, Fault>
        ensures read { (n : ℕ) → length tokens.old.rest.now < n
            → Gives (node_of type_tree) (tokens_of self.now.source.now tokens.new.rest.now) result
            (type_at n (tokens_of self.now.source.now tokens.old.rest.now)) }
        ensures shorter { OnOk result (length tokens.new.rest.now < length tokens.old.rest.now) }
    {
        if let Some(set) = self.accept_keyword(tokens, "Set") {
            return self.set_behind(tokens, set);
        }
        if let Some(opening) = self.accept_mark(tokens, "{") {
            let Node { node: attrs, loc } = self.record_behind(tokens, opening)?;
            return Ok(Node {
                node: Type::Record(attrs),
                loc,
            });
        }
        let path = self.path(tokens)?;
        let named = self.named(path)?;
        Ok(named)
    }

    /// A path as a type.
    #[tactic(auto, using(crate::proofs::TypeTrees::tree_of_name))]
    fn named(&self, path: Path) -> Mem<Node<Type>>
        ensures { IfOk result (λ named. node_of type_tree named ≡ as_name (path_tree path)) }
    {
        let loc = path.loc().dup(self.alloc)?;
        Ok(Node {
            node: Type::Ident(path),
            loc,
        })
    }

    /// The word `Set` as an identifier.
    fn set_word(&self, set: Lexeme<'_>) -> Mem<Node<Id>>
        requires { set.text.now ≡ codes "Set" }
        ensures { IfOk result (λ id. node_of id_word id
            ≡ lexeme_node self.now.source.now set.entry) }
    {
        let word = self.source.beside(self.alloc, set.text)?;
        let loc = self.place(set.start, set.end)?;
        Ok(Node {
            node: Id::of_word(word),
            loc,
        })
    }

    /// The set of this element, from its word to its `>`.
    #[tactic(auto, using(crate::proofs::TypeTrees::tree_of_set))]
    fn set_of(&self, set: Lexeme<'_>, element: Node<Type>, closing: Lexeme<'_>) -> Mem<Node<Type>>
        ensures { IfOk result (λ set_type. node_of type_tree set_type
            ≡ placed (Set (type_tree element.node) element.loc)
            (lexeme_node self.now.source.now set.entry).loc
            (lexeme_node self.now.source.now closing.entry).loc) }
    {
        let loc = self.place(set.start, closing.end)?;
        let element = Boxed::new(self.alloc, element)?;
        Ok(Node {
            node: Type::Set(element),
            loc,
        })
    }

    /// Takes the rest of a path that begins with the word `Set`, as a type.
    #[tactic(auto, unfolding(crate::specs::Behind::name_behind))]
    fn set_name<'a>(&self, tokens: &mut Tokens<'_, 'a>, set: Lexeme<'a>) -> Out<Node<Type>, Fault>
        requires { set.text.now ≡ codes "Set" }
        ensures read { Gives (node_of type_tree)
            (tokens_of self.now.source.now tokens.new.rest.now) result
            (name_behind (lexeme_node self.now.source.now set.entry)
            (tokens_of self.now.source.now tokens.old.rest.now)) }
        ensures shorter { OnOk result (length tokens.new.rest.now ≤ length tokens.old.rest.now) }
    {
        let word = self.set_word(set)?;
        let path = self.path_behind(tokens, word)?;
        let named = self.named(path)?;
        Ok(named)
    }

    /// Takes what follows `Set`.
    #[cycle(parser)]
    #[tactic(auto, unfolding(cedar_grammar::specs::Reading::set_behind, crate::specs::Behind::name_behind))]
    fn set_behind<'a>(&self, tokens: &mut Tokens<'_, 'a>, set: Lexeme<'a>) -> Out<Node<Type>, Fault>
        requires { set.text.now ≡ codes "Set" }
        ensures read { (n : ℕ) → length tokens.old.rest.now < n
            → Gives (node_of type_tree) (tokens_of self.now.source.now tokens.new.rest.now) result
            (set_behind (type_at n) (lexeme_node self.now.source.now set.entry)
            (tokens_of self.now.source.now tokens.old.rest.now)) }
        ensures shorter { OnOk result (length tokens.new.rest.now ≤ length tokens.old.rest.now) }
    {
        if let Some(_) = self.accept_mark(tokens, "<") {
            let element = self.type_of(tokens)?;
            let closing = self.expect_mark(tokens, ">")?;
            return Ok(self.set_of(set, element, closing)?);
        }
        self.set_name(tokens, set)
    }

    /// Takes what follows the `{` of a record.
    #[cycle(parser)]
    #[tactic(auto, unfolding(cedar_grammar::specs::Reading::record_behind))]
    pub fn record_behind<'a>(
        &self,
        tokens: &mut Tokens<'_, 'a>,
        opening: Lexeme<'a>,
    ) -> Out<Node<Items<Attribute>>, Fault>
        ensures read { (n : ℕ) → length tokens.old.rest.now < n
            → Gives (node_of attrs_tree) (tokens_of self.now.source.now tokens.new.rest.now) result
            (record_behind (type_at n) (lexeme_node self.now.source.now opening.entry)
            (tokens_of self.now.source.now tokens.old.rest.now)) }
        ensures shorter { OnOk result (length tokens.new.rest.now < length tokens.old.rest.now) }
    {
        if let Some(closing) = self.accept_mark(tokens, "}") {
            let loc = self.place(opening.start, closing.end)?;
            return Ok(Node {
                node: Items::new(self.alloc),
                loc,
            });
        }
        let (node, closing) = self.attributes(tokens)?;
        let loc = self.place(opening.start, closing.end)?;
        Ok(Node { node, loc })
    }

    /// Takes attributes with commas between, and the `}` behind them.
    #[cycle(parser)]
    fn attributes<'a>(
        &self,
        tokens: &mut Tokens<'_, 'a>,
    ) -> Out<(Items<Attribute>, Lexeme<'a>), Fault>
        ensures read { (n : ℕ) → length tokens.old.rest.now < n
            → Gives (λ r. (map (attr_node attr_tree) r.0, lexeme_node self.now.source.now r.1))
            (tokens_of self.now.source.now tokens.new.rest.now) result
            (braced_at (attr_at (type_at n)) (tokens_of self.now.source.now tokens.old.rest.now)) }
        ensures shorter { OnOk result (length tokens.new.rest.now < length tokens.old.rest.now) }
    {
        let mut attrs = Items::new(self.alloc);
        'attributes: loop {
            let attr = self.attribute(tokens)?;
            attrs.push(attr)?;
            if let None = self.accept_mark(tokens, ",") {
                let closing = self.expect_mark(tokens, "}")?;
                return Ok((attrs, closing));
            }
            if let Some(closing) = self.accept_mark(tokens, "}") {
                return Ok((attrs, closing));
            }
        }
    }

    /// Takes an attribute.
    #[cycle(parser)]
    #[tactic(auto, unfolding(cedar_grammar::specs::Reading::attr_at, cedar_grammar::specs::Reading::annotated_at))]
    fn attribute(&self, tokens: &mut Tokens<'_, '_>) -> Out<Attribute, Fault>
        ensures read { (n : ℕ) → length tokens.old.rest.now < n
            → Gives (attr_node attr_tree) (tokens_of self.now.source.now tokens.new.rest.now) result
            (attr_at (type_at n) (tokens_of self.now.source.now tokens.old.rest.now)) }
        ensures shorter { OnOk result (length tokens.new.rest.now < length tokens.old.rest.now) }
    {
        let annotations = self.annotations(tokens)?;
        let name = self.name(tokens)?;
        let question = self.question(tokens);
        self.expect_mark(tokens, ":")?;
        let ty = self.type_of(tokens)?;
        Ok(self.attribute_of(annotations, name, question, ty)?)
    }

    /// The attribute of this name and type, which is required unless a question mark stands behind its name.
    #[tactic(auto, using(crate::proofs::TypeTrees::tree_of_attr))]
    fn attribute_of(
        &self,
        annotations: Annotations,
        name: Node<Text>,
        question: bool,
        ty: Node<Type>,
    ) -> Mem<Attribute>
        ensures { IfOk result (λ attr. attr_node attr_tree attr ≡ record {
          item = attr_of name question (node_of type_tree ty);
          annotations = annotations_tree annotations;
        }) }
    {
        let loc = self.between(&name.loc, &ty.loc)?;
        let item = AttrDecl {
            name,
            required: !question,
            ty,
        };
        Ok(Node {
            node: Annotated { item, annotations },
            loc,
        })
    }

    /// Takes a question mark if it stands next, and says whether it did.
    #[tactic(auto, unfolding(cedar_grammar::specs::Reading::question_at))]
    fn question(&self, tokens: &mut Tokens<'_, '_>) -> bool
        ensures read { question_at (tokens_of self.now.source.now tokens.old.rest.now)
            ≡ Ok (result, tokens_of self.now.source.now tokens.new.rest.now) }
        ensures shorter { length tokens.new.rest.now ≤ length tokens.old.rest.now }
    {
        if let Some(_) = self.accept_mark(tokens, "?") {
            return true;
        }
        false
    }
}
