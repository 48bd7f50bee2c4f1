// SPDX-License-Identifier: Apache-2.0
ghost use Rattle.std.specs.Prelude.{◌≡◌, IfOk};

use crate::annotated::Annotated;
use crate::path::Path;
use cedar_names::{Boxed, Dup, Items, Mem, Node, Text};
use std::alloc::Global;

/// The names of the types that are built in, each once.
pub const BUILTIN_TYPES: [&str; 3] = ["Long", "String", "Bool"];

/// A type that is built in.
#[derive(Clone, Copy, Debug, PartialEq, Eq)]
pub enum PrimitiveType {
    /// `Long`: whole numbers of 64 bits, with a sign.
    Long,
    /// `String`: texts.
    String,
    /// `Bool`: true or false.
    Bool,
}

/// A type: the set of a type, a name, or a record of attributes.
#[cycle(ty)]
#[derive(Debug, Drop, PartialEq, Eq)]
pub enum Type {
    /// `Set<..>`: the type of the elements, at its place between `<` and `>`.
    Set(Boxed<Node<Type>>),
    /// The name of a type, one that is built in too.
    Ident(Path),
    /// `{..}`: the attributes in the order of the text, a repeated name included; none for `{}`. The place of each runs
    /// from its name to the end of its type, without annotations.
    Record(Items<Node<Annotated<AttrDecl>>>),
}

/// An attribute: its name, whether each record has it, and its type.
#[cycle(ty)]
#[derive(Debug, Drop, PartialEq, Eq)]
pub struct AttrDecl {
    /// The name: a word, or what a string literal stands for. The place of a literal takes in its quotes.
    pub name: Node<Text>,
    /// Whether each record has the attribute: false where `?` stands behind the name.
    pub required: bool,
    /// The type, at its place.
    pub ty: Node<Type>,
}

impl Dup for PrimitiveType {
    fn dup(&self, _alloc: Global) -> Mem<PrimitiveType> {
        Ok(*self)
    }
}

impl Dup for Type {
    #[cycle(dup)]
    fn dup(&self, alloc: Global) -> Mem<Type> {
        match self {
            Type::Set(element) => {
                let element = element.get();
                let node = element.node.dup(alloc)?;
                let loc = element.loc.dup(alloc)?;
                let copy = Boxed::new(alloc, Node { node, loc })?;
                Ok(Type::Set(copy))
            }
            Type::Ident(path) => {
                let path = path.dup(alloc)?;
                Ok(Type::Ident(path))
            }
            Type::Record(attrs) => {
                let attrs = dup_attributes(alloc, attrs)?;
                Ok(Type::Record(attrs))
            }
        }
    }
}

impl Dup for AttrDecl {
    #[cycle(dup)]
    fn dup(&self, alloc: Global) -> Mem<AttrDecl> {
        let name = self.name.dup(alloc)?;
        let node = self.ty.node.dup(alloc)?;
        let loc = self.ty.loc.dup(alloc)?;
        Ok(AttrDecl {
            name,
            required: self.required,
            ty: Node { node, loc },
        })
    }
}

/// A copy of the attributes of a record.
#[cycle(dup)]
fn dup_attributes(
    alloc: Global,
    attrs: &Items<Node<Annotated<AttrDecl>>>,
) -> Mem<Items<Node<Annotated<AttrDecl>>>>
    ensures { IfOk result (λ copy. copy ≡ attrs.now) }
{
    let mut copies = Items::new(alloc);
    for attr in attrs.as_slice() {
        let item = attr.node.item.dup(alloc)?;
        let annotations = attr.node.annotations.dup(alloc)?;
        let loc = attr.loc.dup(alloc)?;
        let node = Annotated { item, annotations };
        copies.push(Node { node, loc })?;
    }
    Ok(copies)
}
