// SPDX-License-Identifier: Apache-2.0
ghost use Rattle.std.specs.Prelude.{◌≡◌, [], ◌∷◌, nat_lt};
ghost use Rattle.std.specs.List.{flat_map};
ghost use Rattle.cedar_tree.specs.Meanings.{action_tree, app_tree, attrs_tree, annotated_tree, context_tree, decl_tree, entity_tree, namespace_tree, node_of, schema_tree, type_tree};
ghost use Rattle.cedar_tree.specs.Trees.{Record, Action, Entity};
ghost use Rattle.cedar_tree.specs.Nesting.{greatest_nest, nest, outermost_types, types_of_app, types_of_decl, types_of_namespace, types_of_shape, deep_place, nest_at_most};

use crate::annotated::Annotated;
use crate::declaration::{
    ActionDecl, AppDecl, ContextDecl, Declaration, EntityDecl, Namespace, Schema,
};
use crate::ty::{AttrDecl, Type};
use cedar_names::{Items, Node, Span};

/// How many sets and records may stand inside one another in a type.
const NEST_AT_MOST: usize = 128;

/// Whether more sets and records than the limit stand inside one another in the type. It looks no further.
#[cycle(nesting)]
fn nests_past(ty: &Type, limit: usize) -> bool
    ensures { result ≡ nat_lt limit (nest (type_tree ty.now)) }
{
    match ty {
        Type::Ident(_) => false,
        Type::Set(element) => limit == 0 || nests_past(&element.get().node, limit - 1),
        Type::Record(attrs) => limit == 0 || any_nests_past(attrs, limit - 1),
    }
}

/// Whether the type of one of the attributes nests deeper than the limit.
#[cycle(nesting)]
fn any_nests_past(attrs: &Items<Node<Annotated<AttrDecl>>>, limit: usize) -> bool
    ensures { result ≡ nat_lt limit (greatest_nest (attrs_tree attrs.now)) }
{
    for attr in attrs.as_slice() {
        if nests_past(&attr.node.item.ty.node, limit) {
            return true;
        }
    }
    false
}

/// The place of the type, if it nests too deep.
fn deep_type(ty: &Node<Type>) -> Option<Span>
    ensures { result ≡ deep_place (node_of type_tree ty.now ∷ []) }
{
    if nests_past(&ty.node, NEST_AT_MOST) {
        Some(ty.loc.span())
    } else {
        None
    }
}

/// The place of the record of these attributes, if it nests too deep.
fn deep_record(attrs: &Node<Items<Node<Annotated<AttrDecl>>>>) -> Option<Span>
    ensures { result
        ≡ deep_place (record { node = Record (attrs_tree attrs.now.node); loc = attrs.now.loc }
        ∷ []) }
{
    if any_nests_past(&attrs.node, NEST_AT_MOST - 1) {
        Some(attrs.loc.span())
    } else {
        None
    }
}

/// The place of the record of a context or a shape, if it nests too deep.
fn deep_shape(shape: &ContextDecl) -> Option<Span>
    ensures { result ≡ deep_place (types_of_shape (context_tree shape.now)) }
{
    match shape {
        ContextDecl::Path(_) => None,
        ContextDecl::Record(attrs) => deep_record(attrs),
    }
}

/// The place of the first type of a declaration of entity types that nests too deep.
fn deep_in_entity(decl: &EntityDecl) -> Option<Span>
    ensures { result ≡ deep_place (types_of_decl (Entity (entity_tree decl.now))) }
{
    match decl {
        EntityDecl::Standard(decl) => {
            if let Some(place) = deep_shape(&decl.attrs) {
                return Some(place);
            }
            match &decl.tags {
                Some(tags) => deep_type(tags.get()),
                None => None,
            }
        }
        EntityDecl::Enum(_) => None,
    }
}

/// The place of the record of a line of `appliesTo`, if it nests too deep.
fn deep_in_app(app: &AppDecl) -> Option<Span>
    ensures { result ≡ deep_place (types_of_app (app_tree app.now)) }
{
    match app {
        AppDecl::PR(_) => None,
        AppDecl::Context(shape) => deep_shape(shape),
    }
}

/// The place of the first type of lines of `appliesTo` that nests too deep.
fn deep_in_lines(lines: &[Node<AppDecl>]) -> Option<Span>
    ensures { result ≡ deep_place (flat_map (λ line. types_of_app (app_tree line.node)) lines.now) }
{
    for line in lines {
        if let Some(place) = deep_in_app(&line.node) {
            return Some(place);
        }
    }
    None
}

/// The place of the first type of a declaration of actions that nests too deep.
fn deep_in_action(decl: &ActionDecl) -> Option<Span>
    ensures { result ≡ deep_place (types_of_decl (Action (action_tree decl.now))) }
{
    match &decl.app_decls {
        Some(lines) => {
            let lines = lines.get();
            if let Some(place) = deep_in_app(&lines.node.head.node) {
                return Some(place);
            }
            deep_in_lines(lines.node.tail.as_slice())
        }
        None => None,
    }
}

/// The place of the first type of a declaration that nests too deep.
fn deep_in_decl(decl: &Declaration) -> Option<Span>
    ensures { result ≡ deep_place (types_of_decl (decl_tree decl.now)) }
{
    match decl {
        Declaration::Entity(decl) => deep_in_entity(decl),
        Declaration::Action(decl) => deep_in_action(decl),
        Declaration::Common(decl) => deep_type(&decl.def),
    }
}

/// The place of the first type of a namespace that nests too deep.
fn deep_in_namespace(namespace: &Annotated<Namespace>) -> Option<Span>
    ensures { result
        ≡ deep_place (types_of_namespace (annotated_tree namespace_tree namespace.now)) }
{
    for decl in namespace.item.decls.as_slice() {
        if let Some(place) = deep_in_decl(&decl.item.node) {
            return Some(place);
        }
    }
    None
}

/// The place of the first outermost type of a schema that nests too deep.
pub fn first_too_deep(schema: &Schema) -> Option<Span>
    ensures { result ≡ deep_place (outermost_types (schema_tree schema.now)) }
{
    for namespace in schema.as_slice() {
        if let Some(place) = deep_in_namespace(namespace) {
            return Some(place);
        }
    }
    None
}
