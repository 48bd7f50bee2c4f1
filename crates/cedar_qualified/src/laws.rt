// SPDX-License-Identifier: Apache-2.0
ghost use Rattle.std.specs.Prelude.{◌≡◌, List, [], map};
ghost use Rattle.std.specs.List.{AllZip, flat_map};
ghost use Rattle.std.specs.declared.result.Result.TheVariants.{Ok, Err};
ghost use Rattle.cedar_data.specs.Maps.{map_values};
ghost use Rattle.cedar_missing.specs.of_declared.Gathering.{declared_names};
ghost use Rattle.cedar_missing.specs.of_declared.Held.{names_of};
ghost use Rattle.cedar_missing.specs.of_declared.Names.{Names, SameNames, target};
ghost use Rattle.cedar_missing.specs.of_declared.Targets.{resolving};
ghost use Rattle.cedar_missing.specs.of_declared.declared.all_defs.AllDefs.{AllDefs};
ghost use Rattle.cedar_missing.specs.of_definitions.declared.structures.ValidatorNamespaceDef.{ValidatorNamespaceDef};
ghost use Rattle.cedar_fragment.specs.ActionUids.{over_conditional};
ghost use Rattle.cedar_missing.specs.Undeclared.{missing_in_definition, missing_in_each};
ghost use Rattle.cedar_names.specs.Components.{components};
ghost use Rattle.cedar_names.specs.declared.internal_name.InternalName.{InternalName};
ghost use Rattle.cedar_schema_error.specs.FullNames.{FullName};
ghost use Rattle.cedar_schema_error.specs.NameReferences.{action_reference_of, reference_of};
ghost use Rattle.cedar_schema_error.specs.Refusals.{Refusal, UsePlace};
ghost use Rattle.cedar_schema_error.specs.declared.schema_error.SchemaError.{SchemaError};
ghost use Rattle.cedar_world.specs.of_unfold.Resolved.{Resolved};
ghost use Rattle.cedar_world.specs.of_unfold.UnfoldPhases.{IsUnfolded, Job, Unfoldable, WhyNotUnfoldable, full_job};
ghost use Rattle.cedar_world.specs.of_unfold.Written.{Written};
ghost use Rattle.cedar_world.specs.of_unfold.WrittenViews.{written_type};
ghost use Rattle.cedar_world.specs.DefinitionViews.{namespace_in, type_in};
ghost use Rattle.cedar_world.specs.Missing.{missing_actions, missing_in, missing_types, reserved_targets};
ghost use Rattle.cedar_world.specs.Qualified.{Qualifies, QualifiesAt, QualifiesJob};
ghost use Rattle.cedar_world.specs.Worlds.{names_in};
ghost use Rattle.cedar_written.specs.Answers.{all_values};
ghost use Rattle.cedar_written.specs.Through.{through_type};
ghost use Rattle.cedar_written.specs.declared.conditional_name.ConditionalName.{ConditionalName};
ghost use Rattle.cedar_written.specs.declared.ty.SchemaType.{SchemaType};
ghost use Rattle.cedar_qualified.specs.Agreeing.{AgreeingNames};

/// A law: what is so of a job over full names is so of the job whose references they are the targets
/// of. It can be done, it is refused for the same reason, and it unfolds to the same tables. It does
/// nothing when it runs.
pub fn full_jobs<N>()
    ensures done { (job : Job N) (full : List (FullName × Written FullName))
        (uses : List (UsePlace × Written FullName)) → QualifiesJob job full uses
        → Unfoldable (full_job full uses job.meanings.is_extension) → Unfoldable job }
    ensures refused { (job : Job N) (full : List (FullName × Written FullName))
        (uses : List (UsePlace × Written FullName)) (e : Refusal) → QualifiesJob job full uses
        → WhyNotUnfoldable (full_job full uses job.meanings.is_extension) e
        → WhyNotUnfoldable job e }
    ensures unfolded { (job : Job N) (full : List (FullName × Written FullName))
        (uses : List (UsePlace × Written FullName)) (commons : List (FullName × Resolved))
        (used : List (UsePlace × Resolved)) → QualifiesJob job full uses
        → IsUnfolded (full_job full uses job.meanings.is_extension) commons used
        → IsUnfolded job commons used }
{}

/// A law: a type whose references become their targets qualifies to what it becomes, and one that is
/// refused has a reference without target; so with the types of a map, under any keys. It does
/// nothing when it runs.
pub fn walked_types<K, J>()
    ensures qualifies { (names : Names) (t : SchemaType ConditionalName)
        (u : SchemaType InternalName) → through_type (resolving names) t ≡ Ok u
        → Qualifies (target names) (type_in t) (written_type components u) }
    ensures all_qualify { (names : Names) (f : K → J) (es : List (K × SchemaType ConditionalName))
        (us : List (K × SchemaType InternalName))
        → all_values (map_values (through_type (resolving names)) es) ≡ Ok us
        → AllZip (QualifiesAt (target names)) (map (λ e. (f e.0, type_in e.1)) es)
        (map (λ e. (f e.0, written_type components e.1)) us) }
    ensures refused { (names : Names) (t : SchemaType ConditionalName) (e : SchemaError)
        → through_type (resolving names) t ≡ Err e → missing_in names (type_in t) ≡ [] → ⊥ }
    ensures one_refused { (names : Names) (es : List (K × SchemaType ConditionalName))
        (e : SchemaError) → all_values (map_values (through_type (resolving names)) es) ≡ Err e
        → flat_map (λ e. missing_in names (type_in e.1)) es ≡ [] → ⊥ }
{}

/// A law: what definitions miss among names is what their namespaces miss among names that agree with
/// those: types, actions, and the names with `__cedar` that they mean. It does nothing when it runs.
pub fn missing_is()
    ensures types { (a b : Names)
        (ds : List (ValidatorNamespaceDef ConditionalName ConditionalName over_conditional))
        → AgreeingNames a b → map reference_of (missing_in_each (missing_in_definition a) ds).types
        ≡ missing_types b (map namespace_in ds) }
    ensures actions { (a b : Names)
        (ds : List (ValidatorNamespaceDef ConditionalName ConditionalName over_conditional))
        → AgreeingNames a b
        → map action_reference_of (missing_in_each (missing_in_definition a) ds).actions
        ≡ missing_actions b (map namespace_in ds) }
    ensures reserved { (a b : Names)
        (ds : List (ValidatorNamespaceDef ConditionalName ConditionalName over_conditional))
        → AgreeingNames a b → map components (missing_in_each (missing_in_definition a) ds).reserved
        ≡ reserved_targets b (map namespace_in ds) }
{}

/// A law: gathered names that are the same as the declared ones, as far as a name of a schema can
/// tell, agree with those of the namespaces of the definitions. It does nothing when it runs.
pub fn agreeing_names()
    ensures { (d : AllDefs)
        (ds : List (ValidatorNamespaceDef ConditionalName ConditionalName over_conditional))
        → SameNames (names_of d) (declared_names ds)
        → AgreeingNames (names_of d) (names_in (map namespace_in ds)) }
{}
