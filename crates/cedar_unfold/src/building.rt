// SPDX-License-Identifier: Apache-2.0
ghost use Rattle.std.specs.Prelude.{◌≡◌, [], ◌∷◌, false, IfOk};
ghost use Rattle.cedar_names.specs.Components.{components};
ghost use Rattle.cedar_names.specs.Identifiers.{unreserved_word};
ghost use Rattle.cedar_unfold.specs.Finished.{entity_of, within};
ghost use Rattle.cedar_unfolding.specs.Resolved as resolved_types;
ghost use Rattle.cedar_unfolding.specs.Resolved.{nest, greatest_nest};
ghost use Rattle.cedar_unfold.specs.ResolvedViews.{resolved, resolved_map};
ghost use Rattle.cedar_unfold.specs.Tables.{found_type};

use crate::nested::Nested;
use cedar_data::{Dup, Map, Mem, Text};
use cedar_names::{EntityType, InternalName, Name, UnreservedId};
use cedar_types::{AttributeType, Attributes, OpenTag, Type};
use std::alloc::Global;

/// How many sets and records may stand in one another.
const DEEPEST: usize = 128;

impl Nested {
    /// A type without parts.
    #[tactic(auto, using(crate::proofs::ResolvedTypes::resolved_types))]
    pub(crate) fn flat(ty: Type) -> Nested
        requires { nest (resolved ty) ≡ 0 }
        ensures { result.ty ≡ ty }
    {
        Nested { ty, depth: 0 }
    }

    /// The type of the entities of a type, nothing where its name is reserved.
    #[tactic(auto, using(crate::proofs::ResolvedTypes::resolved_types))]
    pub(crate) fn entity(alloc: Global, name: &InternalName) -> Mem<Option<Nested>>
        ensures { IfOk result (λ found. found_type found ≡ entity_of (components name.now)) }
    {
        match Name::from_internal(name.dup(alloc)?) {
            Ok(name) => {
                let ty = EntityType::from_name(name);
                Ok(Some(Nested::flat(Type::named_entity_reference(ty))))
            }
            Err(_) => Ok(None),
        }
    }

    /// An extension type.
    #[tactic(auto, using(crate::proofs::ResolvedTypes::resolved_types))]
    pub(crate) fn extension(alloc: Global, id: &UnreservedId) -> Mem<Nested>
        ensures { IfOk result (λ found. resolved found.ty
            ≡ resolved_types.Extension (unreserved_word id.now ∷ [])) }
    {
        let name = Name::unqualified_name(alloc, id.dup(alloc)?);
        Ok(Nested::flat(Type::extension(name)))
    }

    /// The type of sets of elements of this type, nothing where it nests too deep.
    #[tactic(auto, using(crate::proofs::ResolvedTypes::resolved_types))]
    pub(crate) fn set(alloc: Global, element: Nested) -> Mem<Option<Nested>>
        ensures { IfOk result (λ found. found_type found
            ≡ within (resolved_types.Set (resolved element.ty))) }
    {
        if element.depth >= DEEPEST {
            return Ok(None);
        }
        Ok(Some(Nested {
            ty: Type::set(alloc, element.ty)?,
            depth: element.depth + 1,
        }))
    }

    /// The type of closed records of these attributes, whose greatest depth is `depth`; nothing where it nests too
    /// deep.
    #[tactic(auto, using(crate::proofs::ResolvedTypes::resolved_types))]
    pub(crate) fn record(
        alloc: Global,
        attributes: Map<Text, AttributeType>,
        depth: usize,
    ) -> Mem<Option<Nested>>
        requires { depth ≡ greatest_nest (resolved_map attributes) }
        ensures { IfOk result (λ found. found_type found
            ≡ within (resolved_types.Record (resolved_map attributes) false)) }
    {
        if depth >= DEEPEST {
            return Ok(None);
        }
        let attributes = Attributes::from_map(alloc, attributes)?;
        Ok(Some(Nested {
            ty: Type::record_with_attributes(alloc, attributes, OpenTag::ClosedAttributes)?,
            depth: depth + 1,
        }))
    }

    /// The attribute of this type.
    pub(crate) fn attribute(self, is_required: bool) -> AttributeType
        ensures { result ≡ record { attr_type = self.ty; is_required = is_required } }
    {
        AttributeType {
            attr_type: self.ty,
            is_required,
        }
    }
}
