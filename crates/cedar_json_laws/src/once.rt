// SPDX-License-Identifier: Apache-2.0
ghost use Rattle.std.specs.Prelude.{◌≡◌};
ghost use Rattle.serde_json.specs.Data.{Data};
ghost use Rattle.cedar_written.specs.declared.raw_name.RawName.{RawName};
ghost use Rattle.cedar_written.specs.declared.ty.SchemaType.{SchemaType};
ghost use Rattle.cedar_written.specs.declared.ty.TypeOfAttribute.{TypeOfAttribute};
ghost use Rattle.cedar_fragment.specs.ActionUids.{over_raw};
ghost use Rattle.cedar_fragment.specs.declared.action_uid.ActionEntityUID.{ActionEntityUID};
ghost use Rattle.cedar_fragment.specs.declared.definitions.ActionType.{ActionType};
ghost use Rattle.cedar_fragment.specs.declared.definitions.ApplySpec.{ApplySpec};
ghost use Rattle.cedar_fragment.specs.declared.definitions.CommonType.{CommonType};
ghost use Rattle.cedar_fragment.specs.declared.definitions.EntityType.{EntityType};
ghost use Rattle.cedar_fragment.specs.declared.definitions.Fragment.{Fragment};
ghost use Rattle.cedar_fragment.specs.declared.definitions.NamespaceDefinition.{NamespaceDefinition};
ghost use Rattle.cedar_json_types.specs.Types.{AttributeShape, Part};
ghost use Rattle.cedar_json_types.specs.declared.keyed.KeySet.TheVariants as set;
ghost use Rattle.cedar_json_namespaces.specs.of_json_read.Declarations.{IsAction, IsApplySpec, IsCommonType, IsEntityType, IsParent};
ghost use Rattle.cedar_json_namespaces.specs.Namespaces.{IsFragment, IsNamespace};

/// A law of shapes: a value has the shape of at most one structure of each kind. It does nothing when it runs.
pub fn what_has_a_shape_has_one()
    ensures ty { (d : Data) (t u : SchemaType RawName) → Part 129 set.Type d t
        → Part 129 set.Type d u → t ≡ u }
    ensures attribute { (d : Data) (a b : TypeOfAttribute RawName)
        → AttributeShape (Part 129 set.Attribute) d a → AttributeShape (Part 129 set.Attribute) d b
        → a ≡ b }
    ensures common_type { (d : Data) (c e : CommonType RawName) → IsCommonType d c
        → IsCommonType d e → c ≡ e }
    ensures entity_type { (d : Data) (e f : EntityType RawName) → IsEntityType d e
        → IsEntityType d f → e ≡ f }
    ensures action { (d : Data) (a b : ActionType RawName over_raw) → IsAction d a → IsAction d b
        → a ≡ b }
    ensures applies_to { (d : Data) (a b : ApplySpec RawName) → IsApplySpec d a → IsApplySpec d b
        → a ≡ b }
    ensures parent { (d : Data) (a b : ActionEntityUID RawName over_raw) → IsParent d a
        → IsParent d b → a ≡ b }
    ensures namespace { (d : Data) (m n : NamespaceDefinition RawName over_raw) → IsNamespace d m
        → IsNamespace d n → m ≡ n }
    ensures fragment { (d : Data) (f g : Fragment RawName over_raw) → IsFragment d f
        → IsFragment d g → f ≡ g }
{}
