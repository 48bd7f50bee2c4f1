// SPDX-License-Identifier: Apache-2.0
ghost use Rattle.std.specs.Prelude.{◌≡◌, ◌++◌, [], ◌∷◌, Some, None, map, option_map, codes, IfOk, OnOk};
ghost use Rattle.cedar_data.specs.Maps.{map_of};
ghost use Rattle.cedar_declared.specs.Held.{names_of};
ghost use Rattle.cedar_declared.specs.of_definitions.Structures.{definitions_of};
ghost use Rattle.cedar_names.specs.Components.{components};
ghost use Rattle.cedar_names.specs.Extensions.{extension_words};
ghost use Rattle.cedar_names.specs.Identifiers.{unreserved_word};
ghost use Rattle.cedar_names.specs.Order.{words_cmp};
ghost use Rattle.cedar_names.specs.of_text.Words.{primitive_words};
ghost use Rattle.cedar_meaning.specs.DefinitionViews.{common_type_in, namespace_in, variant_in};
ghost use Rattle.cedar_meaning.specs.Definitions.{of_common_types};
ghost use Rattle.cedar_meaning.specs.Worlds.{aliases, aliases_among, builtin_name, builtin_namespaces, builtins, primitives};

use cedar_data::{Dup, Map, Mem};
use cedar_declared::{
    ActionsDef, AllDefs, CommonTypeDefs, EntityTypesDef, ValidatorNamespaceDef,
    ValidatorSchemaFragment,
};
use cedar_names::{Extensions, InternalName, UnreservedId};
use cedar_unfold::{ConditionalName, ReferenceType, SchemaType, TypeVariant};
use std::alloc::Global;

/// A common type under its name.
type CommonType = (InternalName, SchemaType<ConditionalName>);

/// A definition of a namespace, each reference of which has the names that it may stand for.
type Definition = ValidatorNamespaceDef<ConditionalName, ConditionalName>;

/// The name of an identifier within a namespace.
#[tactic(auto, using(crate::proofs::BuiltinNames::names_within))]
fn name_within(alloc: Global, namespace: &InternalName, id: UnreservedId) -> Mem<InternalName>
    ensures { IfOk result (λ n. components n ≡ components namespace.now ++ unreserved_word id
        ∷ []) }
{
    let name = InternalName::unqualified_name(alloc, id.into_id(), None);
    name.qualify_with(alloc, Some(namespace))
}

/// The full name of a builtin type.
fn builtin_name(alloc: Global, id: UnreservedId) -> Mem<InternalName>
    ensures { IfOk result (λ n. components n ≡ builtin_name (unreserved_word id)) }
{
    let cedar = InternalName::cedar(alloc)?;
    name_within(alloc, &cedar, id)
}

/// Puts a builtin type to the others.
fn push_builtin(
    alloc: Global,
    id: UnreservedId,
    ty: TypeVariant<ConditionalName>,
    types: &mut Vec<CommonType>,
) -> Mem<()>
    ensures { OnOk result (map common_type_in types.new.items ≡ map common_type_in types.old.items
        ++ (builtin_name (unreserved_word id), variant_in ty) ∷ []) }
{
    let name = builtin_name(alloc, id)?;
    types.push((name, SchemaType::Variant { ty, loc: None }))?;
    Ok(())
}

/// The primitive types, under their full names.
fn primitive_types(alloc: Global) -> Mem<Vec<CommonType>>
    ensures { IfOk result (λ types. map common_type_in types.items ≡ primitives) }
{
    let mut types = Vec::new(alloc);
    let id = UnreservedId::known(alloc, "Bool")?;
    push_builtin(alloc, id, TypeVariant::Boolean, &mut types)?;
    let id = UnreservedId::known(alloc, "Long")?;
    push_builtin(alloc, id, TypeVariant::Long, &mut types)?;
    let id = UnreservedId::known(alloc, "String")?;
    push_builtin(alloc, id, TypeVariant::String, &mut types)?;
    Ok(types)
}

/// The builtin types, under their full names.
fn builtin_types(alloc: Global, extensions: &Extensions) -> Mem<Vec<CommonType>>
    ensures { IfOk result (λ types. map common_type_in types.items
        ≡ builtins (extension_words extensions.now)) }
{
    let mut types = primitive_types(alloc)?;
    for extension in extensions.ext_types() {
        let id = extension.dup(alloc)?;
        let name = extension.dup(alloc)?;
        push_builtin(alloc, id, TypeVariant::Extension { name }, &mut types)?;
    }
    Ok(types)
}

/// The identifiers of the builtin types: of the primitive ones, and then of the extension types.
fn builtin_ids(alloc: Global, extensions: &Extensions) -> Mem<Vec<UnreservedId>>
    ensures { IfOk result (λ ids. map unreserved_word ids.items ≡ primitive_words
        ++ extension_words extensions.now) }
{
    let mut ids = Vec::new(alloc);
    ids.push(UnreservedId::known(alloc, "Bool")?)?;
    ids.push(UnreservedId::known(alloc, "Long")?)?;
    ids.push(UnreservedId::known(alloc, "String")?)?;
    for extension in extensions.ext_types() {
        ids.push(extension.dup(alloc)?)?;
    }
    Ok(ids)
}

/// The identifier alone, as a name.
fn single_name(alloc: Global, id: &UnreservedId) -> Mem<InternalName>
    ensures { IfOk result (λ n. components n ≡ unreserved_word id.now ∷ []) }
{
    let id = id.dup(alloc)?;
    Ok(InternalName::unqualified_name(alloc, id.into_id(), None))
}

/// Puts the alias of a builtin type to the others, unless a type of its name is declared.
fn push_alias(
    alloc: Global,
    own: &AllDefs,
    id: UnreservedId,
    types: &mut Vec<CommonType>,
) -> Mem<()>
    ensures { OnOk result (map common_type_in types.new.items ≡ map common_type_in types.old.items
        ++ aliases_among (names_of own.now) (unreserved_word id ∷ [])) }
{
    let alias = single_name(alloc, &id)?;
    if own.is_defined_as_common(&alias) || own.is_defined_as_entity(&alias) {
        return Ok(());
    }
    let name = builtin_name(alloc, id)?;
    let type_name = ConditionalName::unconditional(alloc, name, ReferenceType::CommonOrEntity)?;
    let ty = TypeVariant::EntityOrCommon { type_name };
    types.push((alias, SchemaType::Variant { ty, loc: None }))?;
    Ok(())
}

/// The aliases of the builtin types, but for those whose name is that of a declared type.
fn alias_types(alloc: Global, own: &AllDefs, extensions: &Extensions) -> Mem<Vec<CommonType>>
    ensures { IfOk result (λ types. map common_type_in types.items
        ≡ aliases (names_of own.now) (extension_words extensions.now)) }
{
    let ids = builtin_ids(alloc, extensions)?;
    let mut types = Vec::new(alloc);
    for id in ids {
        push_alias(alloc, own, id, &mut types)?;
    }
    Ok(types)
}

/// The definition of a namespace that has these common types alone.
#[tactic(auto, using(crate::proofs::BuiltinNames::of_types))]
fn of_common_types(
    alloc: Global,
    namespace: Option<InternalName>,
    types: Vec<CommonType>,
) -> Mem<Definition>
    ensures definitions { IfOk result (λ d. namespace_in d
        ≡ of_common_types (map_of words_cmp (map common_type_in types.items))) }
    ensures name { IfOk result (λ d. d.namespace ≡ namespace) }
    ensures unplaced { IfOk result (λ d. d.entity_types.locs ≡ []) }
{
    let defs = Map::from_pairs(alloc, types)?;
    Ok(ValidatorNamespaceDef {
        namespace,
        common_types: CommonTypeDefs { defs },
        entity_types: EntityTypesDef::new(alloc),
        actions: ActionsDef::new(alloc),
    })
}

/// The definitions of the builtin types, in the namespace `__cedar`, and of their aliases, in the unnamed one, where `own`
/// has all names that are declared. A builtin type has no alias where a type of its name is declared in the unnamed
/// namespace.
pub fn builtin_definitions(
    alloc: Global,
    own: &AllDefs,
    extensions: &Extensions,
) -> Mem<ValidatorSchemaFragment<ConditionalName, ConditionalName>>
    ensures definitions { IfOk result (λ f. map namespace_in (definitions_of f)
        ≡ builtin_namespaces (names_of own.now) (extension_words extensions.now)) }
    ensures names { IfOk result
        (λ f. map (λ d. option_map components d.namespace) (definitions_of f)
        ≡ Some (codes "__cedar" ∷ []) ∷ None ∷ []) }
    ensures unplaced { IfOk result
        (λ f. map (λ d. d.entity_types.locs) (definitions_of f) ≡ [] ∷ [] ∷ []) }
{
    let cedar = InternalName::cedar(alloc)?;
    let types = builtin_types(alloc, extensions)?;
    let builtins = of_common_types(alloc, Some(cedar), types)?;
    let types = alias_types(alloc, own, extensions)?;
    let aliases = of_common_types(alloc, None, types)?;
    let mut definitions = Vec::new(alloc);
    definitions.push(builtins)?;
    definitions.push(aliases)?;
    Ok(ValidatorSchemaFragment::from_namespaces(definitions))
}
