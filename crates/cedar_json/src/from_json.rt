// SPDX-License-Identifier: Apache-2.0
ghost use Rattle.std.specs.Prelude.{◌≡◌, Some, None, IfOk};
ghost use Rattle.cedar_text.specs.Failures.{IfRefused};
ghost use Rattle.serde_json.specs.Data.{Data};
ghost use Rattle.serde_json.specs.View.{view};
ghost use Rattle.cedar_json_types.specs.Faults.{Fault};
ghost use Rattle.cedar_json_types.specs.Types.{AttributeShape, Part, attribute_fault, part_fault};
ghost use Rattle.cedar_json_types.specs.declared.keyed.KeySet.TheVariants as set;
ghost use Rattle.cedar_json_namespaces.specs.of_json_read.Declarations.{IsAction, IsApplySpec, IsCommonType, IsEntityType, IsParent, action_fault, apply_fault, common_type_fault, entity_fault, parent_fault};
ghost use Rattle.cedar_json_namespaces.specs.Namespaces.{IsFragment, IsNamespace, fragment_fault, namespace_fault};

use cedar_data::Out;
use cedar_fragment::{
    ActionEntityUID, ActionType, ApplySpec, CommonType, EntityType, Fragment, NamespaceDefinition,
    RawName, SchemaType, TypeOfAttribute,
};
use cedar_json_fault::JsonDeserializationError;
use cedar_json_namespaces::{ReadDeclaration, read_fragment, read_namespace};
use cedar_json_types::ReadPart;
use serde_json::Value;
use std::alloc::Global;

/// What a JSON value may have the shape of.
pub trait FromJson: Sized {
    /// The value has the shape of this.
    ghost shapes: { Data → Self → Type 0 };

    /// The first fault of the value.
    ghost fault: { Data → Fault };

    /// What the value has the shape of, where it has no fault; refused with its first fault.
    fn from_json_value(alloc: Global, json: &Value) -> Out<Self, JsonDeserializationError>
        ensures shape { IfOk result (λ v. shapes (view json.now) v) }
        ensures clean { IfOk result (λ _. fault (view json.now) ≡ None) }
        ensures refused { IfRefused result (λ e. fault (view json.now) ≡ Some e) };
}

impl FromJson for SchemaType<RawName> {
    ghost shapes = { Part 129 set.Type };

    ghost fault = { part_fault 129 set.Type };

    fn from_json_value(
        alloc: Global,
        json: &Value,
    ) -> Out<SchemaType<RawName>, JsonDeserializationError> {
        <SchemaType<RawName> as ReadPart>::from_json_value(alloc, json)
    }
}

impl FromJson for TypeOfAttribute<RawName> {
    ghost shapes = { AttributeShape (Part 129 set.Attribute) };

    ghost fault = { attribute_fault (part_fault 129 set.Attribute) };

    fn from_json_value(
        alloc: Global,
        json: &Value,
    ) -> Out<TypeOfAttribute<RawName>, JsonDeserializationError> {
        <TypeOfAttribute<RawName> as ReadPart>::from_json_value(alloc, json)
    }
}

impl FromJson for CommonType<RawName> {
    ghost shapes = { IsCommonType };

    ghost fault = { common_type_fault };

    fn from_json_value(
        alloc: Global,
        json: &Value,
    ) -> Out<CommonType<RawName>, JsonDeserializationError> {
        <CommonType<RawName> as ReadDeclaration>::from_json_value(alloc, json)
    }
}

impl FromJson for EntityType<RawName> {
    ghost shapes = { IsEntityType };

    ghost fault = { entity_fault };

    fn from_json_value(
        alloc: Global,
        json: &Value,
    ) -> Out<EntityType<RawName>, JsonDeserializationError> {
        <EntityType<RawName> as ReadDeclaration>::from_json_value(alloc, json)
    }
}

impl FromJson for ActionType<RawName> {
    ghost shapes = { IsAction };

    ghost fault = { action_fault };

    fn from_json_value(
        alloc: Global,
        json: &Value,
    ) -> Out<ActionType<RawName>, JsonDeserializationError> {
        <ActionType<RawName> as ReadDeclaration>::from_json_value(alloc, json)
    }
}

impl FromJson for ApplySpec<RawName> {
    ghost shapes = { IsApplySpec };

    ghost fault = { apply_fault };

    fn from_json_value(
        alloc: Global,
        json: &Value,
    ) -> Out<ApplySpec<RawName>, JsonDeserializationError> {
        <ApplySpec<RawName> as ReadDeclaration>::from_json_value(alloc, json)
    }
}

impl FromJson for ActionEntityUID<RawName> {
    ghost shapes = { IsParent };

    ghost fault = { parent_fault };

    fn from_json_value(
        alloc: Global,
        json: &Value,
    ) -> Out<ActionEntityUID<RawName>, JsonDeserializationError> {
        <ActionEntityUID<RawName> as ReadDeclaration>::from_json_value(alloc, json)
    }
}

impl FromJson for NamespaceDefinition<RawName> {
    ghost shapes = { IsNamespace };

    ghost fault = { namespace_fault };

    fn from_json_value(
        alloc: Global,
        json: &Value,
    ) -> Out<NamespaceDefinition<RawName>, JsonDeserializationError> {
        read_namespace(alloc, json)
    }
}

impl FromJson for Fragment<RawName> {
    ghost shapes = { IsFragment };

    ghost fault = { fragment_fault };

    fn from_json_value(
        alloc: Global,
        json: &Value,
    ) -> Out<Fragment<RawName>, JsonDeserializationError> {
        read_fragment(alloc, json)
    }
}
