// SPDX-License-Identifier: Apache-2.0
ghost use Rattle.std.specs.Prelude.{◌≡◌, ◌⊎◌, ℕ, List};
ghost use Rattle.std.specs.declared.result.Result.TheVariants.{Err};
ghost use Rattle.serde_json.specs.Data.{Data};
ghost use Rattle.cedar_checks.specs.of_world.Schemas.{Schema};
ghost use Rattle.cedar_unfold.specs.Resolved.{Resolved};
ghost use Rattle.cedar_conform_fault.specs.Flaws.{Misfit};
ghost use Rattle.cedar_conform.specs.Entities.{AreEntities};
ghost use Rattle.cedar_conform.specs.EntityChecks.{entities_check};
ghost use Rattle.cedar_conform.specs.Fits.{Fits};
ghost use Rattle.cedar_conform.specs.ValueChecks.{value_check};
ghost use Rattle.cedar_request.specs.RequestChecks.{requests_check};
ghost use Rattle.cedar_request.specs.RequestFlaws.{RequestFlaw};
ghost use Rattle.cedar_request.specs.Requests.{AreRequests};
ghost use Rattle.cedar_compat.specs.BreakChecks.{schema_check};
ghost use Rattle.cedar_compat.specs.Changes.{TypeBreak};
ghost use Rattle.cedar_compat.specs.Compatible.{Compatible};

/// A law: a value in JSON fits a resolved type or has a first misfit, and never both. It does nothing when it runs.
pub fn value_or_misfit()
    ensures either { (S : Schema) (T : Resolved) (d : Data)
        → Fits S T d ⊎ ((m : Misfit) × (value_check S T d ≡ Err m)) }
    ensures never_both { (S : Schema) (T : Resolved) (d : Data) (m : Misfit) → Fits S T d
        → value_check S T d ≡ Err m → ⊥ }
{}

/// A law: a value in JSON is a list of entities of a schema of which none stands twice, or has a first misfit, and never
/// both. It does nothing when it runs.
pub fn entities_or_misfit()
    ensures either { (S : Schema) (d : Data)
        → AreEntities S d ⊎ ((m : Misfit) × (entities_check S d ≡ Err m)) }
    ensures never_both { (S : Schema) (d : Data) (m : Misfit) → AreEntities S d
        → entities_check S d ≡ Err m → ⊥ }
{}

/// A law: a value in JSON is a list of requests in environments of a schema, which have these numbers, or has a first
/// flaw. It does nothing when it runs.
pub fn requests_or_flaw()
    ensures { (S : Schema) (d : Data)
        → ((numbers : List ℕ) × AreRequests S d numbers)
        ⊎ ((flaw : RequestFlaw) × (requests_check S d ≡ Err flaw)) }
{}

/// A law: a schema is compatible with an old one or takes something away first, and never both. It does nothing when it
/// runs.
pub fn compatible_or_break()
    ensures either { (old new : Schema)
        → Compatible old new ⊎ ((broken : TypeBreak) × (schema_check old new ≡ Err broken)) }
    ensures never_both { (old new : Schema) (broken : TypeBreak) → Compatible old new
        → schema_check old new ≡ Err broken → ⊥ }
{}
