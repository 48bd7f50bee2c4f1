// SPDX-License-Identifier: Apache-2.0
ghost use Rattle.std.specs.Prelude.{◌≡◌, [], IfOk};
ghost use Rattle.std.specs.Option.{option_copied, option_map};
ghost use Rattle.cedar_data.specs.Answers.{IfRefused};
ghost use Rattle.cedar_data.specs.Firsts.{IsFirst};
ghost use Rattle.cedar_names.specs.Names.{internal_of};
ghost use Rattle.cedar_schema_error.specs.Told.{told};
ghost use Rattle.cedar_definitions.specs.Structures.{definitions_of};
ghost use Rattle.cedar_namespace_definitions.specs.Definitions.{AreDefinitionsOf, IsDefinitionOf};
ghost use Rattle.cedar_namespace_definitions.specs.Faults.{definition_faults, fragment_faults};

use crate::namespaces::defined;
use cedar_data::{Map, Out};
use cedar_definitions::{ValidatorNamespaceDef, ValidatorSchemaFragment};
use cedar_fragment::{ConditionalName, Fragment, NamespaceDefinition, RawName};
use cedar_names::{Extensions, InternalName, Name};
use cedar_schema_error::{ActionBehavior, SchemaError};
use std::alloc::Global;

/// What a schema, as it is written, makes definitions of.
pub trait FromSchemaFragment: Sized {
    /// The definitions of the namespaces of the schema. Refused with the first fault of the first namespace that has
    /// one; where `action_behavior` prohibits them, attributes of actions are one.
    fn from_schema_fragment(
        alloc: Global,
        fragment: Fragment<RawName>,
        action_behavior: ActionBehavior,
        extensions: &Extensions,
    ) -> Out<Self, SchemaError>;
}

/// The name of a namespace, as one that may have any component.
fn namespace_of(name: &Option<Name>) -> Option<&InternalName>
    ensures { option_copied result ≡ option_map internal_of name.now }
{
    match name {
        Some(name) => Some(name.as_internal()),
        None => None,
    }
}

/// The definition of a namespace of a schema; refused with its first fault.
fn namespace_defined(
    alloc: Global,
    name: &Option<Name>,
    namespace_def: NamespaceDefinition<RawName>,
    action_behavior: ActionBehavior,
) -> Out<ValidatorNamespaceDef<ConditionalName, ConditionalName>, SchemaError>
    ensures made { IfOk result
        (λ d. IsDefinitionOf (option_map internal_of name.now) namespace_def d) }
    ensures ok { IfOk result
        (λ _. definition_faults action_behavior (option_map internal_of name.now) namespace_def
        ≡ []) }
    ensures refused { IfRefused result
        (λ e. IsFirst
        (definition_faults action_behavior (option_map internal_of name.now) namespace_def)
        (told e)) }
{
    defined(alloc, namespace_of(name), namespace_def, action_behavior)
}

/// The definitions of the namespaces of a schema, in order; refused with the first fault.
fn definitions_in(
    alloc: Global,
    fragment: Fragment<RawName>,
    action_behavior: ActionBehavior,
) -> Out<Vec<ValidatorNamespaceDef<ConditionalName, ConditionalName>>, SchemaError>
    ensures made { IfOk result (λ made. AreDefinitionsOf fragment.0 made.items) }
    ensures ok { IfOk result (λ _. fragment_faults action_behavior fragment ≡ []) }
    ensures refused { IfRefused result
        (λ e. IsFirst (fragment_faults action_behavior fragment) (told e)) }
{
    let mut definitions = Vec::with_capacity(alloc, fragment.0.len())?;
    for (name, namespace_def) in fragment.0.into_entries() {
        let definition = namespace_defined(alloc, &name, namespace_def, action_behavior)?;
        definitions.push(definition)?;
    }
    Ok(definitions)
}

impl FromSchemaFragment for ValidatorSchemaFragment<ConditionalName, ConditionalName> {
    /// The definition of each namespace, in order. Refused with the first fault of the first namespace that has one.
    /// No rule asks for `extensions`.
    fn from_schema_fragment(
        alloc: Global,
        fragment: Fragment<RawName>,
        action_behavior: ActionBehavior,
        extensions: &Extensions,
    ) -> Out<ValidatorSchemaFragment<ConditionalName, ConditionalName>, SchemaError>
        ensures made { IfOk result (λ made. AreDefinitionsOf fragment.0 (definitions_of made)) }
        ensures ok { IfOk result (λ _. fragment_faults action_behavior fragment ≡ []) }
        ensures refused { IfRefused result
            (λ e. IsFirst (fragment_faults action_behavior fragment) (told e)) }
    {
        let definitions = definitions_in(alloc, fragment, action_behavior)?;
        Ok(ValidatorSchemaFragment::from_namespaces(definitions))
    }
}
