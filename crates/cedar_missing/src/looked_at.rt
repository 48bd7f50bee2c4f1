// SPDX-License-Identifier: Apache-2.0
ghost use Rattle.std.specs.Prelude.{◌≡◌, fold, IfOk};
ghost use Rattle.cedar_declared.specs.Held.{names_of};
ghost use Rattle.cedar_declared.specs.of_definitions.Structures.{definitions_of};
ghost use Rattle.cedar_missing.specs.Undeclared.{missing_in_action, missing_in_apply, missing_in_common, missing_in_definition, missing_in_each, missing_in_entity, missing_in_values, missing_parts, no_missing, or_else, with_missing};

use crate::missing::{Missing, push_all};
use crate::undefined::missing_in_type;
use cedar_data::{Items, Map, Mem};
use cedar_declared::{
    ActionFragment, ActionsDef, AllDefs, AttributesOrContext, CommonTypeDefs, ConditionalName,
    EntityTypeFragment, EntityTypesDef, SchemaType, ValidatorApplySpec, ValidatorNamespaceDef,
    ValidatorSchemaFragment,
};
use std::alloc::Global;

/// What has references that may mean nothing declared.
pub trait HasReferences {
    ghost use Rattle.cedar_declared.specs.Names.{Names};
    ghost use Rattle.cedar_missing.specs.declared.missing.Missing.{Missing};

    /// What its references miss among these declared names.
    ghost missing: { Names → Self → Missing };

    /// What its references miss: all that is reported of each declaration in it, in order.
    fn missing(&self, alloc: Global, all_defs: &AllDefs) -> Mem<Missing>
        ensures { IfOk result (λ m. m ≡ missing (names_of all_defs.now) self.now) };
}

impl<K: Ord, V: HasReferences> HasReferences for Map<K, V> {
    ghost missing = { λ names es. missing_in_values (V.missing names) es };

    #[tactic(auto, using(crate::proofs::Joins::joins))]
    fn missing(&self, alloc: Global, all_defs: &AllDefs) -> Mem<Missing> {
        let mut all = Missing::none(alloc);
        for (_, value) in self.iter() {
            let missing = value.missing(alloc, all_defs)?;
            all.append(missing)?;
        }
        Ok(all)
    }
}

impl HasReferences for SchemaType<ConditionalName> {
    ghost missing = { missing_in_common };

    fn missing(&self, alloc: Global, all_defs: &AllDefs) -> Mem<Missing> {
        let types = missing_in_type(alloc, all_defs, self)?;
        Ok(Missing {
            types,
            actions: Items::new(alloc),
            reserved: Items::new(alloc),
        })
    }
}

impl HasReferences for CommonTypeDefs<ConditionalName> {
    ghost missing = { λ names d. missing_in_values (missing_in_common names) d.defs };

    fn missing(&self, alloc: Global, all_defs: &AllDefs) -> Mem<Missing> {
        self.defs.missing(alloc, all_defs)
    }
}

/// The first reference of a shape that means nothing declared, and the first of the type of tags.
fn missing_in_shape(
    alloc: Global,
    all_defs: &AllDefs,
    shape: &AttributesOrContext<ConditionalName>,
    tags: &Option<SchemaType<ConditionalName>>,
) -> Mem<Items<ConditionalName>>
    ensures { IfOk result (λ ns. ns ≡ missing_parts (names_of all_defs.now) shape.now tags.now) }
{
    let mut missing = missing_in_type(alloc, all_defs, &shape.0)?;
    if let Some(tags) = tags {
        push_all(&mut missing, missing_in_type(alloc, all_defs, tags)?)?;
    }
    Ok(missing)
}

impl HasReferences for EntityTypeFragment<ConditionalName> {
    ghost missing = { missing_in_entity };

    #[tactic(auto, using(crate::proofs::Joins::joins))]
    fn missing(&self, alloc: Global, all_defs: &AllDefs) -> Mem<Missing> {
        match self {
            EntityTypeFragment::Standard {
                attributes,
                parents,
                tags,
            } => {
                let parents = parents.missing(alloc, all_defs)?;
                let parts = missing_in_shape(alloc, all_defs, attributes, tags)?;
                Ok(Missing {
                    types: or_else(parents.types, parts),
                    actions: parents.actions,
                    reserved: parents.reserved,
                })
            }
            EntityTypeFragment::Enum(_) => Ok(Missing::none(alloc)),
        }
    }
}

impl HasReferences for EntityTypesDef<ConditionalName> {
    ghost missing = { λ names d. missing_in_values (missing_in_entity names) d.defs };

    fn missing(&self, alloc: Global, all_defs: &AllDefs) -> Mem<Missing> {
        self.defs.missing(alloc, all_defs)
    }
}

impl HasReferences for ValidatorApplySpec<ConditionalName> {
    ghost missing = { missing_in_apply };

    fn missing(&self, alloc: Global, all_defs: &AllDefs) -> Mem<Missing> {
        let mut missing = self.principal_apply_spec.missing(alloc, all_defs)?;
        let resources = self.resource_apply_spec.missing(alloc, all_defs)?;
        missing.append(resources)?;
        Ok(missing)
    }
}

impl HasReferences for ActionFragment<ConditionalName, ConditionalName> {
    ghost missing = { missing_in_action };

    #[tactic(auto, using(crate::proofs::Joins::joins))]
    fn missing(&self, alloc: Global, all_defs: &AllDefs) -> Mem<Missing> {
        let applies = self.applies_to.missing(alloc, all_defs)?;
        let parents = self.parents.missing(alloc, all_defs)?;
        let context = missing_in_type(alloc, all_defs, &self.context)?;
        let mut reserved = applies.reserved;
        push_all(&mut reserved, parents.reserved)?;
        Ok(Missing {
            types: or_else(context, applies.types),
            actions: parents.actions,
            reserved,
        })
    }
}

/// The first list, or the second where the first is empty.
fn or_else<T: Drop>(first: Items<T>, second: Items<T>) -> Items<T>
    ensures { result ≡ or_else first second }
{
    if first.is_empty() { second } else { first }
}

impl HasReferences for ActionsDef<ConditionalName, ConditionalName> {
    ghost missing = { λ names d. missing_in_values (missing_in_action names) d.actions };

    fn missing(&self, alloc: Global, all_defs: &AllDefs) -> Mem<Missing> {
        self.actions.missing(alloc, all_defs)
    }
}

impl HasReferences for ValidatorNamespaceDef<ConditionalName, ConditionalName> {
    ghost missing = { missing_in_definition };

    fn missing(&self, alloc: Global, all_defs: &AllDefs) -> Mem<Missing> {
        let mut missing = self.common_types.missing(alloc, all_defs)?;
        missing.append(self.entity_types.missing(alloc, all_defs)?)?;
        missing.append(self.actions.missing(alloc, all_defs)?)?;
        Ok(missing)
    }
}

impl HasReferences for ValidatorSchemaFragment<ConditionalName, ConditionalName> {
    ghost missing = { λ names f. missing_in_each (missing_in_definition names) (definitions_of f) };

    #[tactic(auto, using(crate::proofs::Joins::gathered))]
    fn missing(&self, alloc: Global, all_defs: &AllDefs) -> Mem<Missing> {
        let missing = gather_missing(alloc, all_defs, self.definitions())?;
        Ok(missing)
    }
}

/// What the references of definitions miss, put together one after another.
fn gather_missing(
    alloc: Global,
    all_defs: &AllDefs,
    definitions: &[ValidatorNamespaceDef<ConditionalName, ConditionalName>],
) -> Mem<Missing>
    ensures { IfOk result (λ m. m
        ≡ fold (with_missing
        (missing_in_definition (names_of all_defs.now))) no_missing definitions.now) }
{
    let mut all = Missing::none(alloc);
    for definition in definitions {
        let missing = definition.missing(alloc, all_defs)?;
        all.append(missing)?;
    }
    Ok(all)
}
