// SPDX-License-Identifier: Apache-2.0
ghost use Rattle.cedar_convert_fragment.specs.Views.{definition_seen, fragment_seen};
ghost use Rattle.cedar_in_order.specs.InOrder.{DefinitionInOrder, FragmentInOrder, TypeInOrder};
ghost use Rattle.cedar_reread.specs.EachType.{EachOfDefinition};

use crate::declarations::{actions_in_order, common_types_in_order, entity_types_in_order};
use crate::types::annotations_in_order;
use cedar_fragment::{Fragment, NamespaceDefinition, RawName};

/// A law: the maps of what a namespace declares ascend at every depth. It changes nothing when it runs.
fn definition_in_order(definition: &NamespaceDefinition<RawName>)
    ensures maps { DefinitionInOrder (definition_seen definition.now) }
    ensures types { EachOfDefinition TypeInOrder (definition_seen definition.now) }
{
    common_types_in_order(&definition.common_types);
    entity_types_in_order(&definition.entity_types);
    actions_in_order(&definition.actions);
    annotations_in_order(&definition.annotations);
}

/// A law: the maps of a fragment ascend at every depth. The namespaces, and what each declares, stand in the order of
/// their names, so do the attributes of each record within a type, and all annotations in that of their keys. It changes
/// nothing when it runs.
#[tactic(auto, using(crate::proofs::NamespacesSeen::each_namespace))]
pub fn maps_in_order(fragment: &Fragment<RawName>)
    ensures { FragmentInOrder (fragment_seen fragment.now) }
{
    for (_, definition) in fragment.0.iter() {
        definition_in_order(definition);
    }
}
