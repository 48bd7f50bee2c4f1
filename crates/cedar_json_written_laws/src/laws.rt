// SPDX-License-Identifier: Apache-2.0
ghost use Rattle.std.specs.Prelude.{◌≡◌};
ghost use Rattle.cedar_written.specs.declared.raw_name.RawName.{RawName};
ghost use Rattle.cedar_written.specs.declared.ty.SchemaType.{SchemaType};
ghost use Rattle.cedar_written.specs.declared.ty.TypeOfAttribute.{TypeOfAttribute};
ghost use Rattle.cedar_fragment.specs.ActionUids.{over_raw};
ghost use Rattle.cedar_fragment.specs.declared.action_uid.ActionEntityUID.{ActionEntityUID};
ghost use Rattle.cedar_fragment.specs.declared.definitions.ActionType.{ActionType};
ghost use Rattle.cedar_fragment.specs.declared.definitions.ApplySpec.{ApplySpec};
ghost use Rattle.cedar_fragment.specs.declared.definitions.CommonType.{CommonType};
ghost use Rattle.cedar_fragment.specs.declared.definitions.EntityType.{EntityType};
ghost use Rattle.cedar_fragment.specs.declared.definitions.Fragment.{Fragment};
ghost use Rattle.cedar_fragment.specs.declared.definitions.NamespaceDefinition.{NamespaceDefinition};
ghost use Rattle.cedar_json_types.specs.Parts.{Names};
ghost use Rattle.cedar_json_types.specs.Types.{AttributeShape, Part, attribute_fault, part_fault};
ghost use Rattle.cedar_json_types.specs.declared.keyed.KeySet.TheVariants as set;
ghost use Rattle.cedar_json_read.specs.Declarations.{IsAction, IsApplySpec, IsCommonType, IsEntityType, IsParent, action_fault, apply_fault, common_type_fault, entity_fault, parent_fault};
ghost use Rattle.cedar_json_namespaces.specs.Namespaces.{IsFragment, IsNamespace, fragment_fault, namespace_fault};
ghost use Rattle.cedar_json_write.specs.Written.{action_json, apply_json, attribute_json, common_json, entity_json, fragment_json, name_text, namespace_json, parent_json, type_json};
ghost use Rattle.cedar_json_written_laws.specs.ReadBack.{IsReadAs};
ghost use Rattle.cedar_json_written_laws.specs.Unplaced.{action_unplaced, apply_unplaced, attribute_unplaced, common_unplaced, entity_unplaced, fragment_unplaced, name_unplaced, namespace_unplaced, parent_unplaced, type_unplaced};
ghost use Rattle.cedar_json_written_laws.specs.Writable.{WritableAction, WritableApply, WritableAttribute, WritableCommon, WritableEntity, WritableFragment, WritableNamespace, WritableType};

use cedar_json_laws::{what_has_a_shape_has_no_fault, what_has_a_shape_has_one};

/// A law of writing: what is written in JSON of a structure has the shape of that structure, places aside. It does nothing
/// when it runs.
pub fn what_is_written_has_the_shape()
    ensures name { (n : RawName) → Names (name_text n) (name_unplaced n) }
    ensures ty { (t : SchemaType RawName) → WritableType t
        → Part 129 set.Type (type_json t) (type_unplaced t) }
    ensures attribute { (a : TypeOfAttribute RawName) → WritableAttribute WritableType a
        → AttributeShape (Part 129 set.Attribute) (attribute_json a) (attribute_unplaced a) }
    ensures common_type { (c : CommonType RawName) → WritableCommon c
        → IsCommonType (common_json c) (common_unplaced c) }
    ensures entity_type { (e : EntityType RawName) → WritableEntity e
        → IsEntityType (entity_json e) (entity_unplaced e) }
    ensures action { (a : ActionType RawName over_raw) → WritableAction a
        → IsAction (action_json a) (action_unplaced a) }
    ensures applies_to { (a : ApplySpec RawName) → WritableApply a
        → IsApplySpec (apply_json a) (apply_unplaced a) }
    ensures parent { (a : ActionEntityUID RawName over_raw)
        → IsParent (parent_json a) (parent_unplaced a) }
    ensures namespace { (n : NamespaceDefinition RawName over_raw) → WritableNamespace n
        → IsNamespace (namespace_json n) (namespace_unplaced n) }
    ensures fragment { (f : Fragment RawName over_raw) → WritableFragment f
        → IsFragment (fragment_json f) (fragment_unplaced f) }
{}

/// A law of writing and reading: what is written in JSON of a structure has no fault, and is read back as that structure,
/// places aside. It does nothing when it runs.
pub fn what_is_written_is_read_back()
    ensures ty { (t : SchemaType RawName) → WritableType t
        → IsReadAs (part_fault 129 set.Type (type_json t)) (Part 129 set.Type (type_json t))
        (type_unplaced t) }
    ensures attribute { (a : TypeOfAttribute RawName) → WritableAttribute WritableType a
        → IsReadAs (attribute_fault (part_fault 129 set.Attribute) (attribute_json a))
        (AttributeShape (Part 129 set.Attribute) (attribute_json a)) (attribute_unplaced a) }
    ensures common_type { (c : CommonType RawName) → WritableCommon c
        → IsReadAs (common_type_fault (common_json c)) (IsCommonType (common_json c))
        (common_unplaced c) }
    ensures entity_type { (e : EntityType RawName) → WritableEntity e
        → IsReadAs (entity_fault (entity_json e)) (IsEntityType (entity_json e))
        (entity_unplaced e) }
    ensures action { (a : ActionType RawName over_raw) → WritableAction a
        → IsReadAs (action_fault (action_json a)) (IsAction (action_json a)) (action_unplaced a) }
    ensures applies_to { (a : ApplySpec RawName) → WritableApply a
        → IsReadAs (apply_fault (apply_json a)) (IsApplySpec (apply_json a)) (apply_unplaced a) }
    ensures parent { (a : ActionEntityUID RawName over_raw)
        → IsReadAs (parent_fault (parent_json a)) (IsParent (parent_json a)) (parent_unplaced a) }
    ensures namespace { (n : NamespaceDefinition RawName over_raw) → WritableNamespace n
        → IsReadAs (namespace_fault (namespace_json n)) (IsNamespace (namespace_json n))
        (namespace_unplaced n) }
    ensures fragment { (f : Fragment RawName over_raw) → WritableFragment f
        → IsReadAs (fragment_fault (fragment_json f)) (IsFragment (fragment_json f))
        (fragment_unplaced f) }
{
    what_is_written_has_the_shape();
    what_has_a_shape_has_no_fault();
    what_has_a_shape_has_one();
}
