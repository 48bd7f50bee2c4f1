// SPDX-License-Identifier: Apache-2.0
ghost use Rattle.std.specs.Prelude.{◌≡◌, map, IfOk};
ghost use Rattle.std.specs.Option.{option_copied};
ghost use Rattle.cedar_namespace_definitions.specs.Definitions.{common_in};

use crate::names::name_at;
use cedar_data::{Map, Mem};
use cedar_definitions::CommonTypeDefs;
use cedar_fragment::{
    CommonType, CommonTypeId, ConditionalName, Qualifying, RawName, SchemaType, walk_unrefused,
};
use cedar_names::{InternalName, UnreservedId};
use std::alloc::Global;

/// A common type under its full name in the namespace, with what each name in it may stand for.
fn common_type_in(
    alloc: Global,
    step: &Qualifying<'_>,
    id: CommonTypeId,
    common_type: CommonType<RawName>,
) -> Mem<(InternalName, SchemaType<ConditionalName>)>
    ensures { IfOk result (λ made. made
        ≡ common_in (option_copied step.now.namespace) (id, common_type)) }
{
    let CommonType {
        ty,
        annotations: _,
        loc,
    } = common_type;
    let name = name_at(alloc, step, UnreservedId::from(id), loc)?;
    let ty = walk_unrefused(alloc, step, ty)?;
    Ok((name, ty))
}

/// The common types under their full names in the namespace, in order.
#[tactic(auto, using(crate::proofs::Loops::common_types))]
pub(crate) fn common_types_in(
    alloc: Global,
    step: &Qualifying<'_>,
    common_types: Map<CommonTypeId, CommonType<RawName>>,
) -> Mem<CommonTypeDefs<ConditionalName>>
    ensures { IfOk result (λ made. made.defs
        ≡ map (common_in (option_copied step.now.namespace)) common_types) }
{
    let mut defs = Map::with_room(alloc, common_types.len())?;
    for (id, common_type) in common_types.into_entries() {
        let (name, ty) = common_type_in(alloc, step, id, common_type)?;
        defs.put(name, ty)?;
    }
    Ok(CommonTypeDefs { defs })
}
