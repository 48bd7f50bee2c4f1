// SPDX-License-Identifier: Apache-2.0
ghost use Rattle.std.specs.Prelude.{◌≡◌, IfSome};

use cedar_data::Text;
use cedar_names::{Eid, EntityType, EntityUID, Id, InternalName, Name};
use cedar_text::Loc;
use std::alloc::Global;

/// A text.
pub fn text(alloc: Global, text: &str) -> Option<Text>
    ensures { IfSome result (λ made. made ≡ text.now) }
{
    Text::new(alloc, text).ok()
}

/// The place from 1 to 4 of `A::B`.
pub fn place(alloc: Global) -> Option<Loc>
    ensures { IfSome result (λ loc. (loc.start ≡ 1) × (loc.end ≡ 4)) }
{
    let src = text(alloc, "A::B")?;
    Some(Loc::new(1, 4, src))
}

/// The identifier of a word.
pub fn id(alloc: Global, word: &str) -> Option<Id> {
    Id::new(alloc, word).ok()?
}

/// The name of these identifiers, `A::B`, at that place.
pub fn placed_name(alloc: Global) -> Option<InternalName> {
    let namespace = namespace(alloc)?;
    named(alloc, namespace)
}

/// The namespace `A`.
fn namespace(alloc: Global) -> Option<Vec<Id>> {
    let id = id(alloc, "A")?;
    vec![in alloc; id].ok()
}

/// `B` in this namespace, at that place.
fn named(alloc: Global, namespace: Vec<Id>) -> Option<InternalName> {
    let basename = id(alloc, "B")?;
    Some(InternalName::new(basename, namespace, place(alloc)))
}

/// The same name with no place, whose copies share its namespace.
pub fn shared_name(alloc: Global) -> Option<InternalName> {
    let namespace = namespace(alloc)?;
    let basename = id(alloc, "B")?;
    InternalName::with_shared(alloc, basename, namespace, None).ok()
}

/// The same name as one that isn't reserved.
pub fn unreserved_name(alloc: Global) -> Option<Name> {
    Name::from_internal(placed_name(alloc)?).ok()
}

/// The entity type of that name.
pub fn entity_type(alloc: Global) -> Option<EntityType> {
    Some(EntityType::from_name(unreserved_name(alloc)?))
}

/// The id `x'y`.
pub fn eid(alloc: Global) -> Option<Eid> {
    Some(Eid::new(text(alloc, "x'y")?))
}

/// The entity of that type and of that id, at that place.
pub fn uid(alloc: Global) -> Option<EntityUID> {
    let ty = entity_type(alloc)?;
    let eid = eid(alloc)?;
    Some(EntityUID::from_components(ty, eid, place(alloc)))
}
