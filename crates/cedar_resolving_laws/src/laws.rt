// SPDX-License-Identifier: Apache-2.0
ghost use Rattle.std.specs.Prelude.{◌≡◌, ◌++◌, ◌∷◌, [], ℕ, List, IsTrue, false};
ghost use Rattle.cedar_declared.specs.Names.{is_declared};
ghost use Rattle.cedar_names.specs.Components.{has_cedar};
ghost use Rattle.cedar_names.specs.declared.extensions.Extensions.{Extensions};
ghost use Rattle.cedar_phases.specs.Holding.{Definitions, world_of};
ghost use Rattle.cedar_resolving_laws.specs.Reordered.{DeclareAlike, Reordered, with_namespaces};
ghost use Rattle.cedar_schema_error.specs.FullNames.{FullName, Uid};
ghost use Rattle.cedar_phases.specs.of_sound.Sound.{Sound};
ghost use Rattle.cedar_world.specs.Definitions.{Namespace};
ghost use Rattle.cedar_world.specs.Denotes.{Denotes};
ghost use Rattle.cedar_world.specs.Schemas.{Schema};
ghost use Rattle.cedar_world.specs.Descents.{ActionDescendsFrom, DescendsFrom};
ghost use Rattle.cedar_world.specs.Worlds.{World, own};
ghost use Rattle.cedar_written.specs.declared.reference_type.ReferenceType.TheVariants.{CommonOrEntity};

/// A law: in a sound world an unqualified name in a namespace without `__cedar` stands for one of the types that the
/// caller declares at most: not both for that in the namespace and for that without one. It does nothing when it runs.
#[tactic(auto, using(crate::proofs::WorldLaws::one_possibility))]
pub fn one_possibility()
    ensures { (W : World) (a : List ℕ) (ns : FullName) (x : List ℕ) → Sound W
        → has_cedar (a ∷ ns ++ x ∷ []) ≡ false
        → IsTrue (is_declared (own W) CommonOrEntity (a ∷ ns ++ x ∷ []))
        → IsTrue (is_declared (own W) CommonOrEntity (x ∷ [])) → ⊥ }
{}

/// A law: what descends from what descends from another descends from that too; and in a sound world no action descends
/// from itself. It does nothing when it runs.
#[tactic(auto, using(crate::proofs::WorldLaws::types_join, crate::proofs::WorldLaws::actions_join, crate::proofs::WorldLaws::none_its_own))]
pub fn descents()
    ensures types { (W : World) (a b c : FullName) → DescendsFrom W a b → DescendsFrom W b c
        → DescendsFrom W a c }
    ensures actions { (W : World) (a b c : Uid) → ActionDescendsFrom W a b
        → ActionDescendsFrom W b c
        → ActionDescendsFrom W a c }
    ensures none { (W : World) (u : Uid) → Sound W → ActionDescendsFrom W u u → ⊥ }
{}

/// A law: where namespaces declare what those of a sound world declare, in whatever order, and spread over whatever
/// namespaces, the world of them is sound, and denotes the same schema. It does nothing when it runs.
#[tactic(auto, using(crate::proofs::WorldsReordered::sound_alike, crate::proofs::WorldsReordered::denotes_alike))]
pub fn same_declarations()
    ensures sound { (W : World) (all : List Namespace) → DeclareAlike W.namespaces all → Sound W
        → Sound (with_namespaces W all) }
    ensures denotes { (W : World) (all : List Namespace) → DeclareAlike W.namespaces all
        → (S : Schema)
        → Sound W
        → Denotes W S → Denotes (with_namespaces W all) S }
{}

/// A law: where the namespaces of a sound world stand in another order, the world is sound, and denotes the same schema;
/// so it is with fragments in another order. It does nothing when it runs.
#[tactic(auto, using(crate::proofs::FragmentsReordered::sound_reordered, crate::proofs::FragmentsReordered::denotes_reordered, crate::proofs::FragmentsReordered::fragments_sound, crate::proofs::FragmentsReordered::fragments_denote))]
pub fn orders_of_fragments()
    ensures sound { (W : World) (all : List Namespace) → Reordered W.namespaces all → Sound W
        → Sound (with_namespaces W all) }
    ensures denotes { (W : World) (all : List Namespace) → Reordered W.namespaces all → (S : Schema)
        → Sound W
        → Denotes W S → Denotes (with_namespaces W all) S }
    ensures fragments_sound { (fs gs : List Definitions) (X : Extensions) → Reordered fs gs
        → Sound (world_of fs X)
        → Sound (world_of gs X) }
    ensures fragments_denote { (fs gs : List Definitions) (X : Extensions) → Reordered fs gs
        → (S : Schema)
        → Sound (world_of fs X) → Denotes (world_of fs X) S → Denotes (world_of gs X) S }
{}
