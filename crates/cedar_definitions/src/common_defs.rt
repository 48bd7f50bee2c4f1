// SPDX-License-Identifier: Apache-2.0
ghost use Rattle.std.specs.Prelude.{◌≡◌, [], ◌∷◌, IfOk};
ghost use Rattle.std.specs.Option.{option_copied};
ghost use Rattle.cedar_written.specs.of_data.Maps.{map_of};
ghost use Rattle.cedar_written.specs.of_names.Names.{internal_cmp};
ghost use Rattle.cedar_definitions.specs.CommonDefs.{IsOfCommonTypes, name_in, named_types};

use crate::structures::{ActionsDef, CommonTypeDefs, EntityTypesDef, ValidatorNamespaceDef};
use cedar_fragment::{ConditionalName, SchemaType};
use cedar_written::{InternalName, Map, Mem, UnreservedId};
use std::alloc::Global;
use std::collections::BTreeMap;

impl ValidatorNamespaceDef<ConditionalName, ConditionalName> {
    /// The definition of these common types alone, under their names in the namespace.
    pub fn from_common_type_defs(
        alloc: Global,
        namespace: Option<InternalName>,
        defs: BTreeMap<UnreservedId, SchemaType<ConditionalName>>,
    ) -> Mem<ValidatorNamespaceDef<ConditionalName, ConditionalName>>
        ensures { IfOk result (λ d. IsOfCommonTypes namespace defs.entries d) }
    {
        let types = named_in(alloc, namespace.as_ref(), defs)?;
        Ok(of_common_types(alloc, namespace, types))
    }

    /// The definition of this common type alone, under its name in the namespace.
    pub fn from_common_type_def(
        alloc: Global,
        namespace: Option<InternalName>,
        id: UnreservedId,
        def: SchemaType<ConditionalName>,
    ) -> Mem<ValidatorNamespaceDef<ConditionalName, ConditionalName>>
        ensures { IfOk result (λ d. IsOfCommonTypes namespace ((id, def) ∷ []) d) }
    {
        let types = named_alone(alloc, namespace.as_ref(), id, def)?;
        Ok(of_common_types(alloc, namespace, types))
    }
}

/// The definition of these common types alone. It takes no memory.
fn of_common_types(
    alloc: Global,
    namespace: Option<InternalName>,
    defs: Map<InternalName, SchemaType<ConditionalName>>,
) -> ValidatorNamespaceDef<ConditionalName, ConditionalName>
    ensures { result ≡ record {
      namespace = namespace;
      common_types = record { defs = defs };
      entity_types = record { defs = []; locs = [] };
      actions = record { actions = [] };
    } }
{
    ValidatorNamespaceDef {
        namespace,
        common_types: CommonTypeDefs { defs },
        entity_types: EntityTypesDef::new(alloc),
        actions: ActionsDef::new(alloc),
    }
}

/// The name of an identifier in the namespace, with no place.
fn name_in(alloc: Global, namespace: Option<&InternalName>, id: UnreservedId) -> Mem<InternalName>
    ensures { IfOk result (λ n. n ≡ name_in (option_copied namespace.entry) id) }
{
    let name = InternalName::unqualified_name(alloc, id.into_id(), None);
    let name = name.qualify_with(alloc, namespace)?;
    Ok(name)
}

/// This alone, under its name in the namespace.
fn named_alone<T: Drop>(
    alloc: Global,
    namespace: Option<&InternalName>,
    id: UnreservedId,
    value: T,
) -> Mem<Map<InternalName, T>>
    ensures { IfOk result (λ m. m
        ≡ map_of internal_cmp (named_types (option_copied namespace.entry) ((id, value) ∷ []))) }
{
    let mut named = Map::new(alloc);
    let name = name_in(alloc, namespace, id)?;
    named.put(name, value)?;
    Ok(named)
}

/// What stands under identifiers, under their names in the namespace.
fn named_in<T: Drop>(
    alloc: Global,
    namespace: Option<&InternalName>,
    defs: BTreeMap<UnreservedId, T>,
) -> Mem<Map<InternalName, T>>
    ensures { IfOk result (λ m. m
        ≡ map_of internal_cmp (named_types (option_copied namespace.entry) defs.entries)) }
{
    let mut named = Map::new(alloc);
    for (id, value) in defs {
        let name = name_in(alloc, namespace, id)?;
        named.put(name, value)?;
    }
    Ok(named)
}
