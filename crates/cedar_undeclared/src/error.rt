// SPDX-License-Identifier: Apache-2.0
ghost use Rattle.std.specs.Prelude.{◌≡◌, [], cond, map, Some, None, IfOk};
ghost use Rattle.std.specs.List.{filter};
ghost use Rattle.std.specs.Option.{option_map};
ghost use Rattle.cedar_names.specs.Components.{components, has_cedar};
ghost use Rattle.cedar_names.specs.Names.{entity_words};
ghost use Rattle.cedar_missing.specs.of_schema_error.Told.{told};
ghost use Rattle.cedar_undeclared.specs.Undeclared.{is_free, undeclared_refusal};

use cedar_data::{Dup, Mem, Set};
use cedar_missing::{SchemaError, UndeclaredEntityTypesError};
use cedar_names::{EntityType, InternalName, Name};
use cedar_text::NonEmpty;
use std::alloc::Global;

/// The refusal of these names as entity types that are not declared, in order, if there are any. A
/// name with `__cedar` can't be that of an entity type, and is left out. It fails only for want of
/// memory.
pub fn undeclared_error(alloc: Global, names: &Set<InternalName>) -> Mem<Option<SchemaError>>
    ensures free { IfOk result (λ e. option_map told e
        ≡ undeclared_refusal (filter is_free (map components names.now))) }
    ensures all { IfOk result (λ e. filter has_cedar (map components names.now) ≡ []
        → option_map told e ≡ undeclared_refusal (map components names.now)) }
{
    let types = entity_types(alloc, names)?;
    Ok(refusal(types))
}

/// The entity types of the names, but for those with `__cedar`.
fn entity_types(alloc: Global, names: &Set<InternalName>) -> Mem<Vec<EntityType>>
    ensures { IfOk result (λ types. map entity_words types.items
        ≡ filter is_free (map components names.now)) }
{
    let mut types = Vec::new(alloc);
    for name in names.iter() {
        let name = name.dup(alloc)?;
        if let Some(ty) = entity_type(name) {
            types.push(ty)?;
        }
    }
    Ok(types)
}

/// The entity type of this name, unless it has `__cedar`.
fn entity_type(name: InternalName) -> Option<EntityType>
    ensures { option_map entity_words result
        ≡ cond (is_free (components name)) (Some (components name)) None }
{
    match Name::from_internal(name) {
        Ok(name) => Some(EntityType::from_name(name)),
        Err(_) => None,
    }
}

/// The refusal of these entity types, if there are any.
fn refusal(types: Vec<EntityType>) -> Option<SchemaError>
    ensures { option_map told result ≡ undeclared_refusal (map entity_words types.items) }
{
    match NonEmpty::from_vec(types) {
        None => None,
        Some(types) => Some(SchemaError::UndeclaredEntityTypes(UndeclaredEntityTypesError {
            types,
        })),
    }
}
