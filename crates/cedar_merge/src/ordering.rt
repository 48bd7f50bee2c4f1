// SPDX-License-Identifier: Apache-2.0
ghost use Rattle.cedar_merge.specs.Merged.{DeclaresInOrder, StandsInOrder};

use cedar_fragment::{Fragment, NamespaceDefinition, RawName};

/// A law: what a namespace declares stands in the order of its names, and its annotations in that of their keys. It
/// changes nothing when it runs.
fn definition_in_order(definition: &NamespaceDefinition<RawName>)
    ensures { DeclaresInOrder definition.now }
{
    let _common_types = definition.common_types.len();
    let _entity_types = definition.entity_types.len();
    let _actions = definition.actions.len();
    let _annotations = definition.annotations.iter();
}

/// A law: what a fragment declares stands in the order of its names. It changes nothing when it runs.
#[tactic(auto, using(crate::proofs::Ordered::each_definition))]
pub fn fragment_in_order(fragment: &Fragment<RawName>)
    ensures { StandsInOrder fragment.now }
{
    for (_, definition) in fragment.0.iter() {
        definition_in_order(definition);
    }
}
