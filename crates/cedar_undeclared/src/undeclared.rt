// SPDX-License-Identifier: Apache-2.0
ghost use Rattle.std.specs.Prelude.{map, IfOk};
ghost use Rattle.cedar_data.specs.Sets.{IsSetOf};
ghost use Rattle.cedar_missing.specs.of_declared.Held.{names_of};
ghost use Rattle.cedar_names.specs.Components.{components};
ghost use Rattle.cedar_names.specs.Order.{words_cmp};
ghost use Rattle.cedar_undeclared.specs.Undeclared.{IsUndeclaredAmong, names_of_entities};

use crate::gather::{gather_in_types, gather_names};
use cedar_data::{Map, Mem, Set};
use cedar_missing::{AllDefs, UsePlace};
use cedar_names::InternalName;
use cedar_written::SchemaType;
use std::alloc::Global;

/// The names that stand where only an entity type may stand, and are no declared entity types: those
/// of full types, and of the others, which are parents, principals and resources. In order, each once.
/// It fails only for want of memory.
pub fn undeclared_names(
    alloc: Global,
    all_defs: &AllDefs,
    common_types: &Map<InternalName, SchemaType<InternalName>>,
    uses: &Map<UsePlace, SchemaType<InternalName>>,
    others: &[InternalName],
) -> Mem<Set<InternalName>>
    ensures { IfOk result (λ names. IsSetOf words_cmp
        (IsUndeclaredAmong (names_of all_defs.now)
        (names_of_entities common_types.now uses.now others.now))
        (map components names)) }
{
    let mut names = Set::new(alloc);
    gather_in_types(alloc, all_defs, common_types, &mut names)?;
    gather_in_types(alloc, all_defs, uses, &mut names)?;
    gather_names(alloc, all_defs, others, &mut names)?;
    Ok(names)
}
