// SPDX-License-Identifier: Apache-2.0
ghost use Rattle.std.specs.Prelude.{◌≡◌, Some, None, true, unwrap_or, IfOk, MatchResult};
ghost use Rattle.std.specs.Option.{option_copied};
ghost use Rattle.cedar_types.specs.of_names.Components.{components, has_cedar, qualified};
ghost use Rattle.cedar_types.specs.of_names.EntityUids.{eid_of, eid_text, entity_type_of, place_of};
ghost use Rattle.cedar_types.specs.of_names.Names.{internal_of, name_of};
ghost use Rattle.cedar_written.specs.Possibilities.{written};
ghost use Rattle.cedar_written.specs.Qualifying.{action_name};
ghost use Rattle.cedar_fragment.specs.ActionUids.{IsEntity, over_conditional, over_full, over_internal, raw_uid, type_in, uid_of};

use crate::action_uid::ActionEntityUID;
use cedar_json_fault::{ConditionalName, RawName, RefName, type_or_action};
use cedar_types::{
    Dup, Eid, EntityType, EntityUID, InternalName, Mem, Name, ReservedNameError, Text,
};
use std::alloc::Global;

/// The action `id` of the action type `ty`.
pub(crate) fn with_type<N: RefName>(ty: N, id: Text) -> ActionEntityUID<N>
    ensures { result ≡ uid_of N.RefName id ty }
{
    ActionEntityUID { ty: Some(ty), id }
}

impl ActionEntityUID<RawName> {
    /// The action `id`, of the type `Action` of the same namespace where no type is given.
    pub fn new(ty: Option<RawName>, id: Text) -> ActionEntityUID<RawName>
        ensures { result ≡ raw_uid ty id }
    {
        ActionEntityUID { ty, id }
    }

    /// The action `id` with no type, which stands for `Action`.
    pub fn default_type(id: Text) -> ActionEntityUID<RawName>
        ensures { result ≡ raw_uid None id }
    {
        ActionEntityUID { ty: None, id }
    }

    /// The type, if one is given.
    pub fn raw_ty(&self) -> Option<&RawName>
        ensures { option_copied result ≡ type_in self.now }
    {
        self.ty.as_ref()
    }

    /// The action with its type within the namespace that `ns` names, unless the type has a namespace already.
    pub fn qualify_with(
        self,
        alloc: Global,
        ns: Option<&InternalName>,
    ) -> Mem<ActionEntityUID<InternalName>>
        ensures { IfOk result (λ uid. uid
            ≡ uid_of over_internal self.id
            (qualified (written (unwrap_or (type_in self) action_name)) (option_copied ns.entry))) }
    {
        let ActionEntityUID { ty, id } = self;
        let name = type_or_action(alloc, ty)?;
        let ty = name.qualify_with(alloc, ns)?;
        Ok(with_type(ty, id))
    }
}

impl ActionEntityUID<ConditionalName> {
    /// The type.
    pub fn ty(&self) -> &ConditionalName
        ensures { Some result.now ≡ type_in self.now }
    {
        match &self.ty {
            Some(ty) => ty,
            None => unreachable!(),
        }
    }

    /// The action `id` of the type `ty`.
    pub fn with_type(ty: ConditionalName, id: Text) -> ActionEntityUID<ConditionalName>
        ensures { result ≡ uid_of over_conditional id ty }
    {
        with_type(ty, id)
    }

    /// The type and the id, by value.
    pub fn into_parts(self) -> (ConditionalName, Text)
        ensures ty { Some result.0 ≡ type_in self }
        ensures id { result.1 ≡ self.id }
    {
        let ActionEntityUID { ty, id } = self;
        match ty {
            Some(ty) => (ty, id),
            None => unreachable!(),
        }
    }
}

impl ActionEntityUID<InternalName> {
    /// The type.
    pub fn ty(&self) -> &InternalName
        ensures { Some result.now ≡ type_in self.now }
    {
        match &self.ty {
            Some(ty) => ty,
            None => unreachable!(),
        }
    }

    /// The action `id` of the type `ty`.
    pub fn with_type(ty: InternalName, id: Text) -> ActionEntityUID<InternalName>
        ensures { result ≡ uid_of over_internal id ty }
    {
        with_type(ty, id)
    }

    /// The type and the id, by value.
    pub fn into_parts(self) -> (InternalName, Text)
        ensures ty { Some result.0 ≡ type_in self }
        ensures id { result.1 ≡ self.id }
    {
        let ActionEntityUID { ty, id } = self;
        match ty {
            Some(ty) => (ty, id),
            None => unreachable!(),
        }
    }
}

impl ActionEntityUID<Name> {
    /// The type.
    pub fn ty(&self) -> &Name
        ensures { Some result.now ≡ type_in self.now }
    {
        match &self.ty {
            Some(ty) => ty,
            None => unreachable!(),
        }
    }

    /// The action `id` of the type `ty`.
    pub fn with_type(ty: Name, id: Text) -> ActionEntityUID<Name>
        ensures { result ≡ uid_of over_full id ty }
    {
        with_type(ty, id)
    }

    /// The type and the id, by value.
    pub fn into_parts(self) -> (Name, Text)
        ensures ty { Some result.0 ≡ type_in self }
        ensures id { result.1 ≡ self.id }
    {
        let ActionEntityUID { ty, id } = self;
        match ty {
            Some(ty) => (ty, id),
            None => unreachable!(),
        }
    }

    /// The entity, as an action.
    pub fn from_uid(u: EntityUID) -> ActionEntityUID<Name>
        ensures { result ≡ uid_of over_full (eid_text (eid_of u)) (name_of (entity_type_of u)) }
    {
        let (ty, eid) = u.components();
        with_type(ty.into_name(), eid.into_text())
    }
}

impl From<ActionEntityUID<Name>> for EntityUID {
    ghost from_gives = { λ a u. (Some (name_of (entity_type_of u)) ≡ type_in a) × IsEntity a.id u };

    fn from(a: ActionEntityUID<Name>) -> EntityUID {
        let (name, id) = a.into_parts();
        EntityUID::from_components(EntityType::from_name(name), Eid::new(id), None)
    }
}

impl TryFrom<ActionEntityUID<InternalName>> for EntityUID {
    type Error = ReservedNameError;

    ghost try_from_gives = { λ a result. MatchResult result
        (λ u. (Some (internal_of (name_of (entity_type_of u))) ≡ type_in a) × IsEntity a.id u)
        (λ error. (Some error.name ≡ type_in a) × (has_cedar (components error.name) ≡ true)) };

    fn try_from(a: ActionEntityUID<InternalName>) -> Result<EntityUID, ReservedNameError> {
        let (internal, id) = a.into_parts();
        let name = Name::from_internal(internal)?;
        let ty = EntityType::from_name(name);
        Ok(EntityUID::from_components(ty, Eid::new(id), None))
    }
}

impl<N: RefName + Dup + Drop> Dup for ActionEntityUID<N> {
    fn dup(&self, alloc: Global) -> Mem<ActionEntityUID<N>> {
        let ty = self.ty.dup(alloc)?;
        let id = self.id.dup(alloc)?;
        Ok(ActionEntityUID { ty, id })
    }
}
