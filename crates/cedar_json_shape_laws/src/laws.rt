// SPDX-License-Identifier: Apache-2.0
ghost use Rattle.std.specs.Prelude.{◌≡◌, ℕ, List, None};
ghost use Rattle.serde_json.specs.Data.{Data};
ghost use Rattle.cedar_written.specs.declared.raw_name.RawName.{RawName};
ghost use Rattle.cedar_written.specs.declared.ty.SchemaType.{SchemaType};
ghost use Rattle.cedar_written.specs.declared.ty.TypeOfAttribute.{TypeOfAttribute};
ghost use Rattle.cedar_fragment.specs.ActionUids.{over_raw};
ghost use Rattle.cedar_fragment.specs.declared.action_uid.ActionEntityUID.{ActionEntityUID};
ghost use Rattle.cedar_fragment.specs.declared.definitions.ActionType.{ActionType};
ghost use Rattle.cedar_fragment.specs.declared.definitions.ApplySpec.{ApplySpec};
ghost use Rattle.cedar_fragment.specs.declared.definitions.CommonType.{CommonType};
ghost use Rattle.cedar_fragment.specs.declared.definitions.EntityType.{EntityType};
ghost use Rattle.cedar_fragment.specs.declared.definitions.Fragment.{Fragment};
ghost use Rattle.cedar_fragment.specs.declared.definitions.NamespaceDefinition.{NamespaceDefinition};
ghost use Rattle.cedar_json.specs.TextFaults.{IsFragmentText, advised_fault};
ghost use Rattle.cedar_json_types.specs.Types.{AttributeShape, Part, attribute_fault, part_fault};
ghost use Rattle.cedar_json_types.specs.declared.keyed.KeySet.TheVariants as set;
ghost use Rattle.cedar_json_namespaces.specs.of_json_read.Declarations.{IsAction, IsApplySpec, IsCommonType, IsEntityType, IsParent, action_fault, apply_fault, common_type_fault, entity_fault, parent_fault};
ghost use Rattle.cedar_json_namespaces.specs.Namespaces.{IsFragment, IsNamespace, fragment_fault, namespace_fault};

/// A law of shapes and faults: a value without a fault as a structure has the shape of one. It is the converse of
/// `what_has_a_shape_has_no_fault`: each value has a fault as a structure or has the shape of one, and never both. It
/// does nothing when it runs.
pub fn what_has_no_fault_has_a_shape()
    ensures ty { (d : Data) → part_fault 129 set.Type d ≡ None
        → (t : SchemaType RawName) × Part 129 set.Type d t }
    ensures attribute { (d : Data) → attribute_fault (part_fault 129 set.Attribute) d ≡ None
        → (a : TypeOfAttribute RawName) × AttributeShape (Part 129 set.Attribute) d a }
    ensures common_type { (d : Data) → common_type_fault d ≡ None
        → (c : CommonType RawName) × IsCommonType d c }
    ensures entity_type { (d : Data) → entity_fault d ≡ None
        → (e : EntityType RawName) × IsEntityType d e }
    ensures action { (d : Data) → action_fault d ≡ None
        → (a : ActionType RawName over_raw) × IsAction d a }
    ensures applies_to { (d : Data) → apply_fault d ≡ None
        → (a : ApplySpec RawName) × IsApplySpec d a }
    ensures parent { (d : Data) → parent_fault d ≡ None
        → (a : ActionEntityUID RawName over_raw) × IsParent d a }
    ensures namespace { (d : Data) → namespace_fault d ≡ None
        → (n : NamespaceDefinition RawName over_raw) × IsNamespace d n }
    ensures fragment { (d : Data) → fragment_fault d ≡ None
        → (f : Fragment RawName over_raw) × IsFragment d f }
{}

/// A law: a text that is that of a fragment has no fault, and a text without a fault is that of one. It does nothing when
/// it runs.
pub fn texts_without_fault()
    ensures clean { (text : List ℕ) (f : Fragment RawName over_raw) → IsFragmentText text f
        → advised_fault text ≡ None }
    ensures shape { (text : List ℕ) → advised_fault text ≡ None
        → (f : Fragment RawName over_raw) × IsFragmentText text f }
{}
