// SPDX-License-Identifier: Apache-2.0
ghost use Rattle.std.specs.Prelude.{◌≡◌, List, map};
ghost use Rattle.cedar_convert_fragment.specs.Views.{fragment_seen};
ghost use Rattle.cedar_namespace_definitions.specs.of_definitions.declared.structures.ValidatorNamespaceDef.{ValidatorNamespaceDef};
ghost use Rattle.cedar_fragment.specs.ActionUids.{over_conditional, over_raw};
ghost use Rattle.cedar_fragment.specs.declared.definitions.Fragment.{Fragment};
ghost use Rattle.cedar_fragment_world.specs.FragmentFaults.{fragment_faults};
ghost use Rattle.cedar_fragment_world.specs.FragmentWorlds.{namespaces_of};
ghost use Rattle.cedar_namespace_definitions.specs.Definitions.{AreDefinitionsOf};
ghost use Rattle.cedar_namespace_definitions.specs.Faults.{fragment_faults as faults_held};
ghost use Rattle.cedar_schema_error.specs.declared.action_behavior.ActionBehavior.{ActionBehavior};
ghost use Rattle.cedar_world.specs.DefinitionViews.{namespace_in};
ghost use Rattle.cedar_written.specs.declared.conditional_name.ConditionalName.{ConditionalName};
ghost use Rattle.cedar_written.specs.declared.raw_name.RawName.{RawName};

/// A law: the definitions that a fragment becomes define the namespaces that the fragment denotes.
/// It does nothing when it runs.
pub fn worlds_of_fragments()
    ensures { (f : Fragment RawName over_raw)
        → (ds : List (ValidatorNamespaceDef ConditionalName ConditionalName over_conditional))
        → AreDefinitionsOf f.0 ds → map namespace_in ds ≡ namespaces_of (fragment_seen f) }
{}

/// A law: what is wrong with a fragment is told by what it declares, whatever holds it. It does
/// nothing when it runs.
pub fn faults_of_fragments()
    ensures { (behavior : ActionBehavior) (f : Fragment RawName over_raw)
        → faults_held behavior f ≡ fragment_faults behavior (fragment_seen f) }
{}
