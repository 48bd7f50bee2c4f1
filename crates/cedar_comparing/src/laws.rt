// SPDX-License-Identifier: Apache-2.0
ghost use Rattle.std.specs.Prelude.{◌≡◌, ◌↔◌, Some, IsTrue};
ghost use Rattle.std.specs.declared.cmp.Ordering.TheVariants.{Equal};
ghost use Rattle.cedar_comparing.specs.Comparing.{GoesAlong, GoesBy, OrdersAlong, OrdersBy};
ghost use Rattle.cedar_comparing.specs.Unplaced.{conditional_unplaced, entity_name_unplaced, entity_uid_unplaced, internal_unplaced, path_unplaced, raw_unplaced};
ghost use Rattle.cedar_comparing.specs.Unplaced.{attribute_unplaced, record_unplaced, shape_unplaced, type_unplaced, variant_unplaced};
ghost use Rattle.cedar_comparing.specs.Unplaced.{common_unplaced, entity_unplaced, kind_unplaced, standard_unplaced};
ghost use Rattle.cedar_comparing.specs.Unplaced.{action_unplaced, apply_unplaced, fragment_unplaced, namespace_unplaced, uid_unplaced};

use cedar_fragment::{
    ActionEntityUID, ActionType, ApplySpec, AttributesOrContext, CommonType, ConditionalName,
    EntityType, EntityTypeKind, Fragment, NamespaceDefinition, RawName, RecordType, RefName,
    SchemaType, StandardEntityType, TypeOfAttribute, TypeVariant,
};
use cedar_names::{EntityType as EntityTypeName, EntityUID, InternalName, Name};
use std::hash::Hash;

/// A law with no work to do: equality of names, and of the ids of entities and actions, leaves their places out, and
/// nothing else.
pub fn names_leave_places_out()
    ensures internal { GoesBy ⟦<InternalName as PartialEq>⟧.eq internal_unplaced }
    ensures path { GoesBy ⟦<Name as PartialEq>⟧.eq path_unplaced }
    ensures entity_type { GoesBy ⟦<EntityTypeName as PartialEq>⟧.eq entity_name_unplaced }
    ensures uid { GoesBy ⟦<EntityUID as PartialEq>⟧.eq entity_uid_unplaced }
    ensures raw { GoesBy ⟦<RawName as PartialEq>⟧.eq raw_unplaced }
    ensures conditional { GoesBy ⟦<ConditionalName as PartialEq>⟧.eq conditional_unplaced }
{}

/// A law with no work to do: over names of which the same holds, equality of types and declarations leaves their places
/// out, and nothing else.
pub fn structures_leave_places_out<N: RefName + Eq>()
    ensures ty { GoesAlong N.eq ⟦<SchemaType<N> as PartialEq>⟧.eq type_unplaced }
    ensures variant { GoesAlong N.eq ⟦<TypeVariant<N> as PartialEq>⟧.eq variant_unplaced }
    ensures record_type { GoesAlong N.eq ⟦<RecordType<N> as PartialEq>⟧.eq record_unplaced }
    ensures attribute { GoesAlong N.eq ⟦<TypeOfAttribute<N> as PartialEq>⟧.eq attribute_unplaced }
    ensures shape { GoesAlong N.eq ⟦<AttributesOrContext<N> as PartialEq>⟧.eq shape_unplaced }
    ensures common_type { GoesAlong N.eq ⟦<CommonType<N> as PartialEq>⟧.eq common_unplaced }
    ensures standard { GoesAlong N.eq ⟦<StandardEntityType<N> as PartialEq>⟧.eq standard_unplaced }
    ensures kind { GoesAlong N.eq ⟦<EntityTypeKind<N> as PartialEq>⟧.eq kind_unplaced }
    ensures entity_type { GoesAlong N.eq ⟦<EntityType<N> as PartialEq>⟧.eq entity_unplaced }
    ensures applies_to { GoesAlong N.eq ⟦<ApplySpec<N> as PartialEq>⟧.eq apply_unplaced }
    ensures parent { GoesAlong N.eq ⟦<ActionEntityUID<N> as PartialEq>⟧.eq
        (uid_unplaced N.RefName) }
    ensures action { GoesAlong N.eq ⟦<ActionType<N> as PartialEq>⟧.eq (action_unplaced N.RefName) }
    ensures namespace { GoesAlong N.eq ⟦<NamespaceDefinition<N> as PartialEq>⟧.eq
        (namespace_unplaced N.RefName) }
    ensures fragment { GoesAlong N.eq ⟦<Fragment<N> as PartialEq>⟧.eq
        (fragment_unplaced N.RefName) }
{}

/// A law with no work to do: the order of values of a type, and its equality, see the same of them. So where one leaves
/// places out, the other does.
pub fn order_agrees_with_equality<T: Ord>()
    ensures equal { (x y : T) → (T.cmp x y ≡ Equal) ↔ IsTrue (T.eq x y) }
    ensures partial { (x y : T) → T.partial_cmp x y ≡ Some (T.cmp x y) }
    ensures left { (bare : T → T) → GoesBy T.eq bare → OrdersBy T.cmp bare }
{}

/// A law with no work to do: equal values of a type are hashed alike. So where its equality leaves places out, its hash
/// does.
pub fn hash_agrees_with_equality<T: Hash>()
    ensures equal { (x y : T) → IsTrue (T.eq x y) → T.hash_input x ≡ T.hash_input y }
    ensures left { (bare : T → T) → GoesBy T.eq bare → (x : T) → T.hash_input x
        ≡ T.hash_input (bare x) }
{}

/// A law with no work to do: over names whose equality leaves places out, the order of types, of shapes and of parents
/// of actions leaves them out as well.
pub fn order_leaves_places_out<N: RefName + Ord>()
    ensures ty { OrdersAlong N.eq ⟦<SchemaType<N> as Ord>⟧.cmp type_unplaced }
    ensures variant { OrdersAlong N.eq ⟦<TypeVariant<N> as Ord>⟧.cmp variant_unplaced }
    ensures record_type { OrdersAlong N.eq ⟦<RecordType<N> as Ord>⟧.cmp record_unplaced }
    ensures attribute { OrdersAlong N.eq ⟦<TypeOfAttribute<N> as Ord>⟧.cmp attribute_unplaced }
    ensures shape { OrdersAlong N.eq ⟦<AttributesOrContext<N> as Ord>⟧.cmp shape_unplaced }
    ensures parent { OrdersAlong N.eq ⟦<ActionEntityUID<N> as Ord>⟧.cmp (uid_unplaced N.RefName) }
{
    structures_leave_places_out::<N>();
    order_agrees_with_equality::<SchemaType<N>>();
    order_agrees_with_equality::<TypeVariant<N>>();
    order_agrees_with_equality::<RecordType<N>>();
    order_agrees_with_equality::<TypeOfAttribute<N>>();
    order_agrees_with_equality::<AttributesOrContext<N>>();
    order_agrees_with_equality::<ActionEntityUID<N>>();
}

/// A law with no work to do: over names whose equality leaves places out, the hash of parents of actions leaves them out
/// as well.
pub fn hash_leaves_places_out<N: RefName + Hash>()
    ensures { (bare : N → N) → GoesBy N.eq bare → (x : ActionEntityUID N N.RefName)
        → ⟦<ActionEntityUID<N> as Hash>⟧.hash_input x
        ≡ ⟦<ActionEntityUID<N> as Hash>⟧.hash_input (uid_unplaced N.RefName bare x) }
{
    structures_leave_places_out::<N>();
    hash_agrees_with_equality::<ActionEntityUID<N>>();
}
