// SPDX-License-Identifier: Apache-2.0
ghost use Rattle.std.specs.Prelude.{IfOk};
ghost use Rattle.serde_json.specs.Data.{Data};
ghost use Rattle.cedar_data.specs.Answers.{IfRefused};
ghost use Rattle.cedar_compat.specs.BreakChecks.{schema_check};
ghost use Rattle.cedar_compat.specs.Changes.{type_break};
ghost use Rattle.cedar_compat.specs.Checks.{Tells};
ghost use Rattle.cedar_compat.specs.Compatible.{Compatible};
ghost use Rattle.cedar_compat.specs.KeptNames.{KeepsNames};
ghost use Rattle.cedar_compat_laws.specs.NamesDiffer.{AllNamesDiffer};
ghost use Rattle.cedar_conform.specs.Entities.{AreEntities};
ghost use Rattle.cedar_compat.specs.of_checks.SchemaViews.{schema_in};
ghost use Rattle.cedar_world.specs.Schemas.{Schema};

use crate::differing::names_differ;
use cedar_compat::{CompatFault, compatible};
use cedar_data::Out;
use cedar_resolved::ValidatorSchema;
use std::alloc::Global;

/// A law: where a schema is compatible with an old one, each list of entities of the old one is a list of entities of
/// the new one. In the new one no two attributes of a record have the same name, as in each schema that stands as a
/// `ValidatorSchema`. It does nothing when it runs.
pub fn old_data_stays_valid()
    ensures { (S R : Schema) → Compatible S R → AllNamesDiffer R → (d : Data) → AreEntities S d
        → AreEntities R d }
{}

/// Answers what `compatible` does. Where it accepts the new schema, each list of entities of the old one is a list of
/// entities of the new one.
pub fn compatible_with_data(
    alloc: Global,
    old: &ValidatorSchema,
    new: &ValidatorSchema,
) -> Out<(), CompatFault>
    ensures told { Tells type_break result (schema_check (schema_in old.now) (schema_in new.now)) }
    ensures fits { IfOk result (λ _. Compatible (schema_in old.now) (schema_in new.now)) }
    ensures unfit { IfRefused result (λ _. Compatible (schema_in old.now) (schema_in new.now)
        → ⊥) }
    ensures kept { IfRefused result (KeepsNames old.now) }
    ensures data { IfOk result (λ _. (d : Data) → AreEntities (schema_in old.now) d
        → AreEntities (schema_in new.now) d) }
{
    old_data_stays_valid();
    names_differ(new);
    compatible(alloc, old, new)
}
