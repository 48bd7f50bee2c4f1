// SPDX-License-Identifier: Apache-2.0
ghost use Rattle.std.specs.Prelude.{◌≡◌, [], ◌∷◌, map, IfOk, IfSome};
ghost use Rattle.std.specs.List.{filter};
ghost use Rattle.std.specs.Option.{option_copied, option_map};
ghost use Rattle.cedar_data.specs.Firsts.{AllPass};
ghost use Rattle.cedar_data.specs.Sets.{contains};
ghost use Rattle.cedar_names.specs.Components.{components, loc_of};
ghost use Rattle.cedar_names.specs.EntityUids.{eid_text};
ghost use Rattle.cedar_names.specs.Identifiers.{id_word};
ghost use Rattle.cedar_names.specs.Order.{words_cmp};
ghost use Rattle.cedar_schema_error.specs.FullNames.{is_qualified, uid_in};
ghost use Rattle.cedar_written.specs.declared.reference_type.ReferenceType.TheVariants.{CommonOrEntity};
ghost use Rattle.cedar_declared.specs.Alone.{least_alone};
ghost use Rattle.cedar_declared.specs.Held.{names_of, type_names};
ghost use Rattle.cedar_declared.specs.HeldPlaces.{IsHeldAction, IsHeldType};
ghost use Rattle.cedar_declared.specs.Names.{is_declared};
ghost use Rattle.cedar_declared.specs.TypeNames.{place_alone};

use crate::all_defs::AllDefs;
use crate::type_names::TypeNames;
use cedar_data::{Dup, Mem, SetIter};
use cedar_names::{Eid, EntityUID, Id, InternalName, Loc};
use std::alloc::Global;

impl TypeNames {
    /// Whether a name of this component alone is one of them.
    #[tactic(auto, using(crate::proofs::QualifiedNames::listed))]
    fn contains_alone(&self, id: &Id) -> bool
        ensures { result ≡ contains words_cmp (type_names self.now) (id_word id.now ∷ []) }
    {
        self.unqualified.contains_key(id)
    }

    /// Those that have a namespace, in order.
    #[tactic(auto, using(crate::proofs::QualifiedNames::listed))]
    fn qualified_names(&self) -> SetIter<'_, InternalName>
        ensures qualified { filter is_qualified (map components result)
            ≡ filter is_qualified (type_names self.now) }
        ensures all { result ≡ self.now.qualified }
    {
        self.qualified.iter()
    }
}

impl AllDefs {
    /// Whether this component alone is the name of a declared type.
    pub fn is_defined_alone(&self, id: &Id) -> bool
        ensures { result ≡ is_declared (names_of self.now) CommonOrEntity (id_word id.now ∷ []) }
    {
        self.common_types.contains_alone(id) || self.entity_types.contains_alone(id)
    }

    /// The place of the declared type of which this component alone is the name: that of an entity type, else that of
    /// a common type.
    fn place_alone(&self, id: &Id) -> Option<&Loc>
        ensures { option_copied result ≡ place_alone self.now id.now }
    {
        match self.entity_types.unqualified.get(id) {
            Some(place) => place.as_ref(),
            None => match self.common_types.unqualified.get(id) {
                Some(place) => place.as_ref(),
                None => None,
            },
        }
    }

    /// The name that is this component alone, with the place of the declared type of this name.
    pub fn name_alone(&self, alloc: Global, id: &Id) -> Mem<InternalName>
        ensures name { IfOk result (λ n. components n ≡ id_word id.now ∷ []) }
        ensures place { IfOk result (λ n. loc_of n ≡ place_alone self.now id.now) }
    {
        let place = match self.place_alone(id) {
            None => None,
            Some(place) => Some(place.dup(alloc)?),
        };
        let id = id.dup(alloc)?;
        Ok(InternalName::unqualified_name(alloc, id, place))
    }

    /// The names of declared entity types; those that have a namespace are all there, in order.
    pub fn qualified_entity_types(&self) -> SetIter<'_, InternalName>
        ensures qualified { filter is_qualified (map components result)
            ≡ filter is_qualified (names_of self.now).entity_types }
        ensures held { AllPass (IsHeldType self.now) result }
    {
        self.entity_types.qualified_names()
    }

    /// The names of declared common types; those that have a namespace are all there, in order.
    pub fn qualified_common_types(&self) -> SetIter<'_, InternalName>
        ensures qualified { filter is_qualified (map components result)
            ≡ filter is_qualified (names_of self.now).common_types }
        ensures held { AllPass (IsHeldType self.now) result }
    {
        self.common_types.qualified_names()
    }

    /// The least declared action of this id whose type has no namespace.
    pub fn action_alone(&self, id: &Eid) -> Option<&EntityUID>
        ensures least { option_map uid_in (option_copied result)
            ≡ least_alone (names_of self.now).actions (eid_text id.now) }
        ensures held { IfSome (option_copied result) (IsHeldAction self.now) }
    {
        self.actions.alone(id)
    }

    /// The declared actions, in order.
    pub fn actions(&self) -> SetIter<'_, EntityUID>
        ensures uids { map uid_in result ≡ (names_of self.now).actions }
        ensures held { AllPass (IsHeldAction self.now) result }
    {
        self.actions.iter()
    }
}
