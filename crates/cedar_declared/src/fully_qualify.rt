// SPDX-License-Identifier: Apache-2.0
ghost use Rattle.std.specs.Prelude.{◌≡◌};
ghost use Rattle.cedar_written.specs.Answers.{Answers};
ghost use Rattle.cedar_written.specs.Through.{through_attribute, through_record, through_type, through_variant};
ghost use Rattle.cedar_definitions.specs.ActionUids.{over_conditional, over_internal};
ghost use Rattle.cedar_definitions.specs.Definitions.{through_action, through_apply, through_entity, through_namespace, through_shape, through_uid};
ghost use Rattle.cedar_declared.specs.Held.{names_of};
ghost use Rattle.cedar_declared.specs.Targets.{resolving};

use crate::all_defs::AllDefs;
use crate::resolving::{Resolving, unboxed};
use cedar_data::Out;
use cedar_definitions::{
    ActionEntityUID, ActionType, ApplySpec, AttributesOrContext, ConditionalName, EntityType,
    NamespaceDefinition, RecordType, SchemaType, TypeOfAttribute, TypeVariant, Walk,
};
use cedar_names::InternalName;
use cedar_schema_error::SchemaError;
use std::alloc::Global;

/// What has references that may be resolved.
pub trait FullyQualify: Sized {
    ghost use Rattle.std.specs.declared.result.Result.{Result};
    ghost use Rattle.cedar_schema_error.specs.declared.schema_error.SchemaError.{SchemaError};
    ghost use Rattle.cedar_declared.specs.declared.all_defs.AllDefs.{AllDefs};

    /// The same over full names.
    type Full;

    /// What comes of it, want of memory aside.
    ghost full: { AllDefs → Self → Result Self.Full SchemaError };

    /// The same with the full name that each reference means, or the refusal of the first that means none, in the order
    /// of fields and keys. All else stays, places too.
    fn fully_qualify_type_references(
        self,
        alloc: Global,
        all_defs: &AllDefs,
    ) -> Out<Self::Full, SchemaError>
        ensures { Answers result (full all_defs.now self) };
}

impl FullyQualify for SchemaType<ConditionalName> {
    type Full = SchemaType<InternalName>;

    ghost full = { λ d. through_type (resolving (names_of d)) };

    fn fully_qualify_type_references(
        self,
        alloc: Global,
        all_defs: &AllDefs,
    ) -> Out<SchemaType<InternalName>, SchemaError> {
        unboxed(self.walk(alloc, &Resolving { all_defs }))
    }
}

impl FullyQualify for TypeVariant<ConditionalName> {
    type Full = TypeVariant<InternalName>;

    ghost full = { λ d. through_variant (resolving (names_of d)) };

    fn fully_qualify_type_references(
        self,
        alloc: Global,
        all_defs: &AllDefs,
    ) -> Out<TypeVariant<InternalName>, SchemaError> {
        unboxed(self.walk(alloc, &Resolving { all_defs }))
    }
}

impl FullyQualify for RecordType<ConditionalName> {
    type Full = RecordType<InternalName>;

    ghost full = { λ d. through_record (resolving (names_of d)) };

    fn fully_qualify_type_references(
        self,
        alloc: Global,
        all_defs: &AllDefs,
    ) -> Out<RecordType<InternalName>, SchemaError> {
        unboxed(self.walk(alloc, &Resolving { all_defs }))
    }
}

impl FullyQualify for TypeOfAttribute<ConditionalName> {
    type Full = TypeOfAttribute<InternalName>;

    ghost full = { λ d. through_attribute (resolving (names_of d)) };

    fn fully_qualify_type_references(
        self,
        alloc: Global,
        all_defs: &AllDefs,
    ) -> Out<TypeOfAttribute<InternalName>, SchemaError> {
        unboxed(self.walk(alloc, &Resolving { all_defs }))
    }
}

impl FullyQualify for AttributesOrContext<ConditionalName> {
    type Full = AttributesOrContext<InternalName>;

    ghost full = { λ d. through_shape (resolving (names_of d)) };

    fn fully_qualify_type_references(
        self,
        alloc: Global,
        all_defs: &AllDefs,
    ) -> Out<AttributesOrContext<InternalName>, SchemaError> {
        unboxed(self.walk(alloc, &Resolving { all_defs }))
    }
}

impl FullyQualify for EntityType<ConditionalName> {
    type Full = EntityType<InternalName>;

    ghost full = { λ d. through_entity (resolving (names_of d)) };

    fn fully_qualify_type_references(
        self,
        alloc: Global,
        all_defs: &AllDefs,
    ) -> Out<EntityType<InternalName>, SchemaError> {
        unboxed(self.walk(alloc, &Resolving { all_defs }))
    }
}

impl FullyQualify for ApplySpec<ConditionalName> {
    type Full = ApplySpec<InternalName>;

    ghost full = { λ d. through_apply (resolving (names_of d)) };

    fn fully_qualify_type_references(
        self,
        alloc: Global,
        all_defs: &AllDefs,
    ) -> Out<ApplySpec<InternalName>, SchemaError> {
        unboxed(self.walk(alloc, &Resolving { all_defs }))
    }
}

impl FullyQualify for ActionEntityUID<ConditionalName> {
    type Full = ActionEntityUID<InternalName>;

    ghost full = { λ d. through_uid over_conditional over_internal (resolving (names_of d)) };

    fn fully_qualify_type_references(
        self,
        alloc: Global,
        all_defs: &AllDefs,
    ) -> Out<ActionEntityUID<InternalName>, SchemaError> {
        unboxed(self.walk(alloc, &Resolving { all_defs }))
    }
}

impl FullyQualify for ActionType<ConditionalName> {
    type Full = ActionType<InternalName>;

    ghost full = { λ d. through_action over_conditional over_internal (resolving (names_of d)) };

    fn fully_qualify_type_references(
        self,
        alloc: Global,
        all_defs: &AllDefs,
    ) -> Out<ActionType<InternalName>, SchemaError> {
        unboxed(self.walk(alloc, &Resolving { all_defs }))
    }
}

impl FullyQualify for NamespaceDefinition<ConditionalName> {
    type Full = NamespaceDefinition<InternalName>;

    ghost full = { λ d. through_namespace over_conditional over_internal (resolving (names_of d)) };

    fn fully_qualify_type_references(
        self,
        alloc: Global,
        all_defs: &AllDefs,
    ) -> Out<NamespaceDefinition<InternalName>, SchemaError> {
        unboxed(self.walk(alloc, &Resolving { all_defs }))
    }
}
