// SPDX-License-Identifier: Apache-2.0
ghost use Rattle.std.specs.Option.{option_copied, option_map};
ghost use Rattle.cedar_compat.specs.of_checks.SchemaViews.{entity_of, schema_in};
ghost use Rattle.cedar_types.specs.Types.{entries};
ghost use Rattle.cedar_unfold.specs.ResolvedViews.{resolved, resolved_map};
ghost use Rattle.cedar_compat_laws.specs.NamesDiffer.{NamesDiffer, AllNamesDiffer, ContextNamesDiffer, TypeNamesDiffer, KindNamesDiffer, TagNamesDiffer};

use cedar_resolved::{ValidatorEntityType, ValidatorEntityTypeKind, ValidatorSchema};
use cedar_types::{Attributes, Type, TypeView};

/// A law: in no record in the type have two attributes the same name. It changes nothing when it runs.
#[cycle(types)]
fn type_names_differ(ty: &Type)
    ensures { TypeNamesDiffer (resolved ty.now) }
{
    match ty.view() {
        TypeView::Set(element) => type_names_differ(element),
        TypeView::Record(attributes, _) => attribute_names_differ(attributes),
        _ => (),
    }
}

/// A law: no two of the attributes have the same name, nor have two in a record in the type of one. It changes nothing
/// when it runs.
#[cycle(types)]
#[tactic(auto, using(crate::proofs::NameLoops::each_name_differs))]
fn attribute_names_differ(attributes: &Attributes)
    ensures { NamesDiffer (resolved_map (entries attributes.now)) }
{
    for (_, attribute) in attributes.iter() {
        type_names_differ(&attribute.attr_type);
    }
}

/// The same of tags, if there are any.
fn tag_names_differ(tags: Option<&Type>)
    ensures { TagNamesDiffer (option_map resolved (option_copied tags.entry)) }
{
    if let Some(ty) = tags {
        type_names_differ(ty);
    }
}

/// The same of an entity type.
fn entity_type_names_differ(ty: &ValidatorEntityType)
    ensures { KindNamesDiffer (entity_of ty.now).kind }
{
    match &ty.kind {
        ValidatorEntityTypeKind::Standard(standard) => {
            attribute_names_differ(ty.attributes());
            tag_names_differ(standard.tag_type());
        }
        ValidatorEntityTypeKind::Enum(_) => (),
    }
}

/// A law: in no record of an entity type of the schema have two attributes the same name. It changes nothing when it
/// runs.
#[tactic(auto, using(crate::proofs::NameLoops::each_one_differs))]
fn all_types_differ(schema: &ValidatorSchema)
    ensures { AllNamesDiffer (schema_in schema.now) }
{
    for ty in schema.entity_types() {
        entity_type_names_differ(ty);
    }
}

/// The same of the contexts of actions.
#[tactic(auto, using(crate::proofs::NameLoops::each_one_differs))]
fn all_contexts_differ(schema: &ValidatorSchema)
    ensures { ContextNamesDiffer (schema_in schema.now) }
{
    for action in schema.action_ids() {
        type_names_differ(action.context());
    }
}

/// A law: in no record of a schema have two attributes the same name, neither in what entities of a type have nor in the
/// context of an action. It changes nothing when it runs.
pub fn names_differ(schema: &ValidatorSchema)
    ensures entity_types { AllNamesDiffer (schema_in schema.now) }
    ensures contexts { ContextNamesDiffer (schema_in schema.now) }
{
    all_types_differ(schema);
    all_contexts_differ(schema);
}
