// SPDX-License-Identifier: Apache-2.0
ghost use Rattle.std.specs.Prelude.{◌≡◌, ◌↔◌, [], ◌∷◌, List, None, IsTrue, IfOk};
ghost use Rattle.cedar_names.specs.of_text.Lists.{elements, elements_left};
ghost use Rattle.cedar_tree.specs.Declarations.{TextAt, entity_names, word_of};

use crate::annotated::Annotated;
use crate::path::{Path, QualName};
use crate::ty::{AttrDecl, Type};
use cedar_names::{Boxed, Dup, Id, Items, Loc, Mem, Node, NonEmpty, NonEmptyIter, Text};
use std::alloc::Global;
use std::fmt;

/// A schema: namespaces, in the order of the text. Each declaration outside of all namespaces is one of its own, which
/// has no name and no annotations; the empty text has none.
pub type Schema = Items<Annotated<Namespace>>;

/// Declarations under the name of a namespace; with no name, those that stand in none. Comparisons leave the place out.
#[derive(Debug, Drop)]
#[derive_where(PartialEq, Eq)]
pub struct Namespace {
    /// The name; none for declarations that stand in no namespace.
    pub name: Option<Path>,
    /// The declarations in the order of the text; none for `{}`. The place of each runs from its keyword to its `;`.
    pub decls: Items<Annotated<Node<Declaration>>>,
    /// The place from the word `namespace` to `}`; none where there is no name.
    #[derive_where(skip(EqHashOrd))]
    pub loc: Option<Loc>,
}

/// A declaration of entity types, of actions, or of a common type.
#[derive(Debug, Drop, PartialEq, Eq)]
pub enum Declaration {
    /// `entity ..;`.
    Entity(EntityDecl),
    /// `action ..;`.
    Action(ActionDecl),
    /// `type ..;`.
    Common(TypeDecl),
}

/// A common type: its name, and the type that it stands for.
#[derive(Debug, Drop, PartialEq, Eq)]
pub struct TypeDecl {
    /// The name, at its place.
    pub name: Node<Id>,
    /// The type behind `=`, at its place.
    pub def: Node<Type>,
}

/// Entity types of one form: with attributes, or listed entity by entity.
#[derive(Debug, Drop, PartialEq, Eq)]
pub enum EntityDecl {
    /// Without `enum`.
    Standard(StandardEntityDecl),
    /// With `enum [..]`.
    Enum(EnumEntityDecl),
}

/// Entity types with the same parents, shape and type of tags.
#[derive(Debug, Drop, PartialEq, Eq)]
pub struct StandardEntityDecl {
    /// The names in the order of the text, each at its place.
    pub names: NonEmpty<Node<Id>>,
    /// The types behind `in`, in the order of the text; none where there is no `in`, or `in []`.
    pub member_of_types: Items<Path>,
    /// The shape: the name of a type, or a record, from `{` to `}`, without `=`. Where neither is written, a record without
    /// attributes at an empty place: the start of `tags`, or else of `;`.
    pub attrs: ContextDecl,
    /// The type behind `tags`, at its own place; none where there is no `tags`.
    pub tags: Option<Boxed<Node<Type>>>,
}

/// Entity types that have the entities of these ids, and no others.
#[derive(Debug, Drop, PartialEq, Eq)]
pub struct EnumEntityDecl {
    /// The names in the order of the text, each at its place.
    pub names: NonEmpty<Node<Id>>,
    /// What the literals behind `enum` stand for, in the order of the text, a repeated one included. The place of each
    /// takes in its quotes.
    pub choices: NonEmpty<Node<Text>>,
}

/// What a list of entity types of an action is said of.
#[derive(Clone, Copy, Debug, PartialEq, Eq)]
pub enum PR {
    /// `principal`.
    Principal,
    /// `resource`.
    Resource,
}

/// The entity types of the principals or of the resources of an action, where any are listed.
#[derive(Debug, Drop, PartialEq, Eq)]
pub struct PRAppDecl {
    /// Of which of the two, at the place of the word.
    pub kind: Node<PR>,
    /// The types in the order of the text; `None` for `[]`.
    pub entity_tys: Option<NonEmpty<Path>>,
}

/// The context of an action or the shape of entity types: the name of a type, or a record.
#[derive(Debug, Drop, PartialEq, Eq)]
pub enum ContextDecl {
    /// The name of a type.
    Path(Path),
    /// The attributes in the order of the text, at the place of the record from `{` to `}`.
    Record(Node<Items<Node<Annotated<AttrDecl>>>>),
}

/// One part of what an action applies to.
#[derive(Debug, Drop, PartialEq, Eq)]
pub enum AppDecl {
    /// `principal: ..` or `resource: ..`.
    PR(PRAppDecl),
    /// `context: ..`.
    Context(ContextDecl),
}

/// Actions with the same parents that apply to the same.
#[derive(Debug, Drop, PartialEq, Eq)]
pub struct ActionDecl {
    /// The names in the order of the text: words, or what string literals stand for. The place of a literal takes in its
    /// quotes.
    pub names: NonEmpty<Node<Text>>,
    /// The actions behind `in`, in the order of the text, each at its place from its path to its id; `None` where there
    /// is no `in`, or `in []`.
    pub parents: Option<Boxed<NonEmpty<Node<QualName>>>>,
    /// The parts of `appliesTo` in the order of the text, a repeated one included, at the place from `{` to `}`; each
    /// runs from its word to the end of what stands behind `:`. `None` where there is no `appliesTo`.
    pub app_decls: Option<Boxed<Node<NonEmpty<Node<AppDecl>>>>>,
}

impl fmt::Display for PR {
    ghost use Rattle.std.specs.Prelude.{Some};
    ghost use Rattle.cedar_tree.specs.Declarations.{scope_text};

    ghost output = { λ scope. Some (scope_text scope) };

    fn fmt<W: fmt::Write>(&self, f: &mut fmt::Formatter<W>) -> fmt::Result {
        match self {
            PR::Principal => write!(f, "principal"),
            PR::Resource => write!(f, "resource"),
        }
    }
}

impl Namespace {
    /// Whether its declarations stand in no namespace.
    pub fn is_unqualified(&self) -> bool
        ensures { IsTrue result ↔ (self.now.name ≡ None) }
    {
        self.name.is_none()
    }
}

impl EntityDecl {
    /// The names of the entity types, in the order of the text, each at its place.
    pub fn names(&self) -> NonEmptyIter<'_, Node<Id>>
        ensures { elements_left result ≡ entity_names self.now }
    {
        match self {
            EntityDecl::Standard(decl) => decl.names.iter(),
            EntityDecl::Enum(decl) => decl.names.iter(),
        }
    }
}

/// A declaration that gives names.
pub trait Decl {
    ghost names_of: { Self → List TextAt };

    /// The names, in the order of the text, each at its place.
    fn names(&self, alloc: Global) -> Mem<Vec<Node<Text>>>
        ensures { IfOk result (λ names. names.items ≡ names_of self.now) };
}

impl Decl for TypeDecl {
    ghost names_of = { λ decl. word_of decl.name ∷ [] };

    fn names(&self, alloc: Global) -> Mem<Vec<Node<Text>>> {
        let word = self.name.node.as_text().dup(alloc)?;
        let loc = self.name.loc.dup(alloc)?;
        let mut names = Vec::new(alloc);
        names.push(Node { node: word, loc })?;
        Ok(names)
    }
}

impl Decl for ActionDecl {
    ghost names_of = { λ decl. elements decl.names };

    fn names(&self, alloc: Global) -> Mem<Vec<Node<Text>>> {
        let mut names = Vec::new(alloc);
        names.push(self.names.head.dup(alloc)?)?;
        for name in self.names.tail.as_slice() {
            let name = name.dup(alloc)?;
            names.push(name)?;
        }
        Ok(names)
    }
}
