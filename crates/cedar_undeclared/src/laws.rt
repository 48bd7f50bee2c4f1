// SPDX-License-Identifier: Apache-2.0
ghost use Rattle.std.specs.Prelude.{◌≡◌, List, [], map};
ghost use Rattle.std.specs.List.{filter};
ghost use Rattle.cedar_data.specs.Sets.{IsSetOf, contains};
ghost use Rattle.cedar_missing.specs.of_declared.Names.{Names, is_entity, targets};
ghost use Rattle.cedar_names.specs.Components.{components, has_cedar};
ghost use Rattle.cedar_names.specs.Order.{words_cmp};
ghost use Rattle.cedar_names.specs.declared.internal_name.InternalName.{InternalName};
ghost use Rattle.cedar_missing.specs.of_schema_error.FullNames.{FullName};
ghost use Rattle.cedar_missing.specs.of_schema_error.declared.use_place.UsePlace.{UsePlace};
ghost use Rattle.cedar_world.specs.of_unfold.Full.{by_place};
ghost use Rattle.cedar_world.specs.of_unfold.Tables.{by_name};
ghost use Rattle.cedar_world.specs.of_unfold.UnfoldPhases.{Unfoldable};
ghost use Rattle.cedar_world.specs.of_unfold.WrittenViews.{written_type};
ghost use Rattle.cedar_world.specs.Missing.{reserved_targets};
ghost use Rattle.cedar_world.specs.Qualified.{QualifiesJob};
ghost use Rattle.cedar_world.specs.Undeclared.{IsUndeclared};
ghost use Rattle.cedar_world.specs.Worlds.{World, all_namespaces, job, names};
ghost use Rattle.cedar_written.specs.declared.ty.SchemaType.{SchemaType};
ghost use Rattle.cedar_undeclared.specs.InWorld.{other_references};
ghost use Rattle.cedar_undeclared.specs.Undeclared.{IsUndeclaredAmong, names_of_entities};

/// A law: where full types are those of a world, and the other names are the targets of its other
/// references, the undeclared names among them are those of the world. And where what the world is to
/// unfold can be unfolded, and no parent, principal and resource means a name with `__cedar`, no
/// undeclared name has `__cedar`. It does nothing when it runs.
pub fn undeclared_in_world()
    ensures is { (w : World) (a : Names) (commons : List (InternalName × SchemaType InternalName))
        (uses : List (UsePlace × SchemaType InternalName)) (others : List InternalName)
        (ks : List FullName) → ((n : FullName) → is_entity a n ≡ is_entity (names w) n)
        → QualifiesJob (job w) (by_name (written_type components) commons)
        (by_place (written_type components) uses)
        → ((n : FullName) → contains words_cmp (map components others) n
        ≡ contains words_cmp (targets (names w) (other_references w)) n)
        → IsSetOf words_cmp (IsUndeclaredAmong a (names_of_entities commons uses others)) ks
        → IsSetOf words_cmp (IsUndeclared w) ks }
    ensures free { (w : World) (ks : List FullName) → Unfoldable (job w)
        → reserved_targets (names w) (all_namespaces w) ≡ []
        → IsSetOf words_cmp (IsUndeclared w) ks → filter has_cedar ks ≡ [] }
{}
