// SPDX-License-Identifier: Apache-2.0
ghost use Rattle.std.specs.Prelude.{◌≡◌, List, map, IfOk};
ghost use Rattle.std.specs.List.{AllZip, flat_map};
ghost use Rattle.std.specs.List.Sorted.{IsPermutation};
ghost use Rattle.cedar_convert_fragment.specs.Views.{fragment_seen};
ghost use Rattle.cedar_data.specs.Answers.{IfRefused};
ghost use Rattle.cedar_data.specs.Firsts.{AllPass};
ghost use Rattle.cedar_definitions.specs.Structures.{definitions_of};
ghost use Rattle.cedar_definitions.specs.declared.structures.ValidatorSchemaFragment.{ValidatorSchemaFragment};
ghost use Rattle.cedar_fragment.specs.ActionUids.{over_conditional};
ghost use Rattle.cedar_fragment_world.specs.FragmentWorlds.{namespaces_of};
ghost use Rattle.cedar_merge.specs.KeptNames.{KeepsNamespace};
ghost use Rattle.cedar_merge.specs.Lookups.{Fragment as Held};
ghost use Rattle.cedar_merge.specs.Merged.{Merged, NoClash, NoConflict};
ghost use Rattle.cedar_merge.specs.Texts.{TellsClash, TellsConflict};
ghost use Rattle.cedar_merge_laws.specs.Together.{InOrder, MeansTogether, said, seen_together};
ghost use Rattle.cedar_namespace_definitions.specs.Definitions.{AreDefinitionsOf};
ghost use Rattle.cedar_world.specs.DefinitionViews.{namespace_in};
ghost use Rattle.cedar_written.specs.declared.conditional_name.ConditionalName.{ConditionalName};

use crate::ordering::fragments_in_order;
use cedar_data::Out;
use cedar_fragment::{Fragment, RawName};
use cedar_merge::{MergeError, merge};
use std::alloc::Global;

/// A law: a fragment that says what several say together, of which no two declare the same, stands for a world that
/// declares what that of all of them does, sound or not; it is sound where theirs is, and then denotes the same schema.
/// They stand in the order of their names, as each fragment does that stands as a `Fragment`. It does nothing when it
/// runs.
pub fn meaning_together()
    ensures { (L : List Held) (F : Held) → AllPass (λ f. InOrder (fragment_seen f)) L
        → NoClash L → Merged L F → MeansTogether L F }
{}

/// A law: the definitions that several fragments become define the namespaces of all of them, one behind the other. It
/// does nothing when it runs.
pub fn definitions_together()
    ensures { (L : List Held)
        → (made : List (ValidatorSchemaFragment ConditionalName ConditionalName over_conditional))
        → AllZip (λ f d. AreDefinitionsOf f.0 (definitions_of d)) L made
        → map namespace_in (flat_map definitions_of made) ≡ namespaces_of (seen_together L) }
{}

/// A law: fragments are merged into one fragment, the places of the annotations of its namespaces aside, in whatever
/// order they stand. It does nothing when it runs.
pub fn orders_of_merged()
    ensures { (L M : List Held) → IsPermutation L M → (F G : Held) → Merged L F → Merged M G
        → said (fragment_seen F) ≡ said (fragment_seen G) }
{}

/// A law: fragments that are seen alike, one by one, are merged into one fragment, the places of the names of its
/// namespaces and of their annotations aside. It does nothing when it runs.
pub fn seen_of_merged()
    ensures { (L M : List Held) → map fragment_seen L ≡ map fragment_seen M → (F G : Held)
        → Merged L F → Merged M G → said (fragment_seen F) ≡ said (fragment_seen G) }
{}

/// Answers what `merge` does. The fragment that it answers declares what all fragments do together, is sound where they
/// are, and then denotes the same schema.
pub fn merge_as_one(
    alloc: Global,
    fragments: Vec<Fragment<RawName>>,
) -> Out<Fragment<RawName>, MergeError>
    ensures merged { IfOk result (Merged fragments.items) }
    ensures apart { IfOk result (λ _. NoClash fragments.items × NoConflict fragments.items) }
    ensures clash { IfRefused result (TellsClash fragments.items) }
    ensures conflict { IfRefused result (TellsConflict fragments.items) }
    ensures kept { IfRefused result (KeepsNamespace fragments.items) }
    ensures together { IfOk result (MeansTogether fragments.items) }
{
    meaning_together();
    fragments_in_order(fragments.as_slice());
    merge(alloc, fragments)
}
