// SPDX-License-Identifier: Apache-2.0
ghost use Rattle.std.specs.Prelude.{◌≡◌, IfOk};
ghost use Rattle.cedar_fragment.specs.Shapes.{type_of_shape};
ghost use Rattle.cedar_tree.specs.Meanings.{attrs_tree, context_tree, node_of, type_tree};
ghost use Rattle.cedar_tree.specs.Paths.{name_of_path};
ghost use Rattle.cedar_written.specs.Possibilities.{raw_name};
ghost use Rattle.cedar_convert_fragment.specs.Declares.{record_form, shape_type, type_at};
ghost use Rattle.cedar_convert_fragment.specs.Views.{primitive_variant, record_seen, type_seen};

use cedar_data::{Boxed, Dup, Items, Map, Mem};
use cedar_fragment::{
    AttributesOrContext, RawName, RecordType, SchemaType, TypeOfAttribute, TypeVariant,
};
use cedar_names::InternalName;
use cedar_text::Node;
use cedar_tree::{Annotated, AttrDecl, ContextDecl, Path, PrimitiveType, Type};
use std::alloc::Global;

/// The name that a path is, at its place. It takes no memory.
pub fn raw_name_from_path(p: Path) -> RawName
    ensures { result ≡ raw_name (name_of_path p) }
{
    RawName::from_name(InternalName::from(p))
}

/// What kind of type a type is that is built in.
pub fn primitive_to_variant<N>(p: PrimitiveType) -> TypeVariant<N>
    ensures { result ≡ primitive_variant p }
{
    match p {
        PrimitiveType::Long => TypeVariant::Long,
        PrimitiveType::String => TypeVariant::String,
        PrimitiveType::Bool => TypeVariant::Boolean,
    }
}

/// The type that a written type declares. It fails only for want of memory.
#[cycle(convert)]
#[tactic(auto, using(crate::proofs::TypeViews::declaring))]
pub fn type_declared(alloc: Global, ty: Node<Type>) -> Mem<SchemaType<RawName>>
    ensures { IfOk result (λ made. type_seen made ≡ type_at (node_of type_tree ty)) }
{
    let Node { node, loc } = ty;
    match node {
        Type::Set(element) => {
            let element = type_declared(alloc, element.into_inner())?;
            let element = Boxed::new(alloc, element)?;
            let ty = TypeVariant::Set { element };
            Ok(SchemaType::Variant { ty, loc: Some(loc) })
        }
        Type::Ident(path) => {
            let ty = TypeVariant::EntityOrCommon {
                type_name: raw_name_from_path(path),
            };
            Ok(SchemaType::Variant { ty, loc: Some(loc) })
        }
        Type::Record(attrs) => {
            let ty = TypeVariant::Record(record_declared(alloc, attrs)?);
            Ok(SchemaType::Variant { ty, loc: Some(loc) })
        }
    }
}

/// The closed record of these attributes. Of several of one name the last counts. It fails only for want of memory.
#[cycle(convert)]
#[tactic(auto, using(crate::proofs::TypeViews::declaring))]
fn record_declared(
    alloc: Global,
    attrs: Items<Node<Annotated<AttrDecl>>>,
) -> Mem<RecordType<RawName>>
    ensures { IfOk result (λ made. record_seen made ≡ record_form (attrs_tree attrs)) }
{
    let mut attributes = Map::with_room(alloc, attrs.len())?;
    for attr in attrs.into_vec() {
        let Node {
            node: Annotated { item, annotations },
            loc: _,
        } = attr;
        let AttrDecl { name, required, ty } = item;
        let ty = type_declared(alloc, ty)?;
        let attribute = TypeOfAttribute {
            ty,
            annotations,
            required,
        };
        attributes.put(name.node, attribute)?;
    }
    Ok(RecordType {
        attributes,
        additional_attributes: false,
    })
}

/// The type that a context or a shape declares. It fails only for want of memory.
#[tactic(auto, using(crate::proofs::TypeViews::declaring))]
pub fn shape_declared(alloc: Global, shape: ContextDecl) -> Mem<AttributesOrContext<RawName>>
    ensures { IfOk result (λ made. type_seen (type_of_shape made)
        ≡ shape_type (context_tree shape)) }
{
    match shape {
        ContextDecl::Path(path) => {
            let loc = path.loc().dup(alloc)?;
            let type_name = raw_name_from_path(path);
            let ty = SchemaType::CommonTypeRef {
                type_name,
                loc: Some(loc),
            };
            Ok(AttributesOrContext(ty))
        }
        ContextDecl::Record(attrs) => {
            let Node { node, loc } = attrs;
            let ty = TypeVariant::Record(record_declared(alloc, node)?);
            Ok(AttributesOrContext(SchemaType::Variant { ty, loc: Some(loc) }))
        }
    }
}
