// SPDX-License-Identifier: Apache-2.0
ghost use Rattle.std.specs.Prelude.{◌≡◌, ◌+◌, ◌≤◌, [], ◌∷◌, true, IfOk};
ghost use Rattle.cedar_data.specs.Answers.{IfRefused};
ghost use Rattle.cedar_names.specs.Components.{components};
ghost use Rattle.cedar_names.specs.Names.{entity_words};
ghost use Rattle.cedar_schema_error.specs.Refusals.{Shape};
ghost use Rattle.cedar_unfold.specs.Full.{by_place};
ghost use Rattle.cedar_unfold.specs.ResolvedViews.{resolved};
ghost use Rattle.cedar_unfold.specs.Written.{Long};
ghost use Rattle.cedar_unfold.specs.WrittenViews.{written_attribute, written_type};
ghost use Rattle.cedar_unfold_laws.specs.TwoLongs.{two_longs, two_longs_resolved};

use cedar_data::{Map, Mem, Out, Text};
use cedar_names::{Annotations, EntityType, Extensions, InternalName};
use cedar_schema_error::{SchemaError, UsePlace};
use cedar_unfold::{Steps, Unfolded, unfold_all};
use cedar_written::{RecordType, SchemaType, TypeOfAttribute, TypeVariant};
use std::alloc::Global;
use std::sync::ledger::Ledger;

/// Unfolds the shape of the entity type `ty`, a closed record of two whole numbers, where there are no common types
/// and no other uses. It is never refused, and takes at most 6 steps whatever it answers: the record and its two
/// attributes are each looked at no more than twice.
pub fn unfold_two_longs<L: Ledger>(
    alloc: Global,
    ty: EntityType,
    extensions: &Extensions,
    steps: &mut Steps<L>,
) -> Out<Unfolded, SchemaError>
    ensures common { IfOk result (λ u. u.common ≡ []) }
    ensures uses { IfOk result (λ u. by_place resolved u.uses
        ≡ (Shape (entity_words ty), two_longs_resolved) ∷ []) }
    ensures refused { IfRefused result (λ _. ⊥) }
    ensures counts { steps.new ≤ steps.old + 6 }
{
    let uses = only_use(alloc, ty)?;
    let defs = Map::new(alloc);
    unfold_all(alloc, &defs, &uses, extensions, steps)
}

/// The closed record of two whole numbers as the shape of the entity type, and no other use.
fn only_use(alloc: Global, ty: EntityType) -> Mem<Map<UsePlace, SchemaType<InternalName>>>
    ensures { IfOk result (λ uses. by_place (written_type components) uses
        ≡ (Shape (entity_words ty), two_longs) ∷ []) }
{
    let shape = two_longs(alloc)?;
    let mut uses = Map::new(alloc);
    uses.put(UsePlace::Shape(ty), shape)?;
    Ok(uses)
}

/// The closed record of two whole numbers.
fn two_longs(alloc: Global) -> Mem<SchemaType<InternalName>>
    ensures { IfOk result (λ ty. written_type components ty ≡ two_longs) }
{
    let mut attributes = Map::new(alloc);
    attributes.put(Text::new(alloc, "a")?, long_attribute(alloc))?;
    attributes.put(Text::new(alloc, "b")?, long_attribute(alloc))?;
    let fields = RecordType {
        attributes,
        additional_attributes: false,
    };
    Ok(SchemaType::from_variant(TypeVariant::Record(fields)))
}

/// A required attribute that is a whole number.
fn long_attribute(alloc: Global) -> TypeOfAttribute<InternalName>
    ensures { written_attribute components result ≡ (true, Long) }
{
    TypeOfAttribute {
        ty: SchemaType::from_variant(TypeVariant::Long),
        annotations: Annotations::new(alloc),
        required: true,
    }
}
