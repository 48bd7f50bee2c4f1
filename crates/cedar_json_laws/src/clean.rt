// SPDX-License-Identifier: Apache-2.0
ghost use Rattle.std.specs.Prelude.{◌≡◌, None};
ghost use Rattle.serde_json.specs.Data.{Data};
ghost use Rattle.cedar_written.specs.declared.raw_name.RawName.{RawName};
ghost use Rattle.cedar_written.specs.declared.ty.SchemaType.{SchemaType};
ghost use Rattle.cedar_written.specs.declared.ty.TypeOfAttribute.{TypeOfAttribute};
ghost use Rattle.cedar_fragment.specs.ActionUids.{over_raw};
ghost use Rattle.cedar_fragment.specs.declared.action_uid.ActionEntityUID.{ActionEntityUID};
ghost use Rattle.cedar_fragment.specs.declared.definitions.ActionType.{ActionType};
ghost use Rattle.cedar_fragment.specs.declared.definitions.ApplySpec.{ApplySpec};
ghost use Rattle.cedar_fragment.specs.declared.definitions.CommonType.{CommonType};
ghost use Rattle.cedar_fragment.specs.declared.definitions.EntityType.{EntityType};
ghost use Rattle.cedar_fragment.specs.declared.definitions.Fragment.{Fragment};
ghost use Rattle.cedar_fragment.specs.declared.definitions.NamespaceDefinition.{NamespaceDefinition};
ghost use Rattle.cedar_json_types.specs.Types.{AttributeShape, Part, attribute_fault, part_fault};
ghost use Rattle.cedar_json_types.specs.declared.keyed.KeySet.TheVariants as set;
ghost use Rattle.cedar_json_namespaces.specs.of_json_read.Declarations.{IsAction, IsApplySpec, IsCommonType, IsEntityType, IsParent, action_fault, apply_fault, common_type_fault, entity_fault, parent_fault};
ghost use Rattle.cedar_json_namespaces.specs.Namespaces.{IsFragment, IsNamespace, fragment_fault, namespace_fault};

/// A law of shapes and faults: a value that has the shape of a structure has no fault as one. So a value is refused as a
/// structure exactly where it has the shape of none. It does nothing when it runs.
pub fn what_has_a_shape_has_no_fault()
    ensures ty { (d : Data) (t : SchemaType RawName) → Part 129 set.Type d t
        → part_fault 129 set.Type d ≡ None }
    ensures attribute { (d : Data) (a : TypeOfAttribute RawName)
        → AttributeShape (Part 129 set.Attribute) d a
        → attribute_fault (part_fault 129 set.Attribute) d ≡ None }
    ensures common_type { (d : Data) (c : CommonType RawName) → IsCommonType d c
        → common_type_fault d ≡ None }
    ensures entity_type { (d : Data) (e : EntityType RawName) → IsEntityType d e → entity_fault d
        ≡ None }
    ensures action { (d : Data) (a : ActionType RawName over_raw) → IsAction d a → action_fault d
        ≡ None }
    ensures applies_to { (d : Data) (a : ApplySpec RawName) → IsApplySpec d a → apply_fault d
        ≡ None }
    ensures parent { (d : Data) (a : ActionEntityUID RawName over_raw) → IsParent d a
        → parent_fault d ≡ None }
    ensures namespace { (d : Data) (n : NamespaceDefinition RawName over_raw) → IsNamespace d n
        → namespace_fault d ≡ None }
    ensures fragment { (d : Data) (f : Fragment RawName over_raw) → IsFragment d f
        → fragment_fault d ≡ None }
{}
