// SPDX-License-Identifier: Apache-2.0
ghost use Rattle.std.specs.Prelude.{◌≡◌, IfOk};
ghost use Rattle.std.specs.Option.{option_copied};
ghost use Rattle.cedar_hierarchy.specs.Uses.{record_at_use, type_at_use};

use cedar_data::{Dup, Map, Mem, Near};
use cedar_schema_error::UsePlace;
use cedar_types::{Attributes, OpenTag, Type, TypeView};
use std::alloc::Global;

/// The types that uses have.
pub(crate) type Uses = Map<UsePlace, Type>;

/// The type of a use, if there is one. The search begins where the last one ended.
pub(crate) fn type_at<'a>(uses: &'a Uses, near: &mut Near, place: &UsePlace) -> Option<&'a Type>
    ensures { option_copied result ≡ type_at_use uses.now place.now }
{
    uses.get_near(near, place)
}

/// A copy of the type of a use, if there is one.
pub(crate) fn copy_at(
    alloc: Global,
    uses: &Uses,
    near: &mut Near,
    place: &UsePlace,
) -> Mem<Option<Type>>
    ensures { IfOk result (λ o. o ≡ type_at_use uses.now place.now) }
{
    match type_at(uses, near, place) {
        None => Ok(None),
        Some(ty) => Ok(Some(ty.dup(alloc)?)),
    }
}

/// The attributes of the record that stands at a use, and whether it may have others: none where no record stands.
pub(crate) fn record_at(
    alloc: Global,
    uses: &Uses,
    near: &mut Near,
    place: &UsePlace,
) -> Mem<(Attributes, OpenTag)>
    ensures { IfOk result (λ r. r ≡ record_at_use (type_at_use uses.now place.now)) }
{
    if let Some(ty) = type_at(uses, near, place) {
        if let TypeView::Record(attributes, tag) = ty.view() {
            return Ok((attributes.dup(alloc)?, tag));
        }
    }
    let none = Attributes::none(alloc)?;
    Ok((none, OpenTag::ClosedAttributes))
}
