// SPDX-License-Identifier: Apache-2.0
ghost use Rattle.std.specs.Prelude.{◌≡◌, IfOk};
ghost use Rattle.std.specs.Option.{option_copied};
ghost use Rattle.cedar_written.specs.Answers.{Makes};
ghost use Rattle.cedar_written.specs.Qualifying.{qualifying};
ghost use Rattle.cedar_fragment.specs.ActionUids.{over_conditional, over_raw};
ghost use Rattle.cedar_fragment.specs.Definitions.{bare_namespace, through_action, through_apply, through_entity, through_namespace, through_shape, through_uid};

use crate::action_uid::ActionEntityUID;
use crate::attributes_or_context::AttributesOrContext;
use crate::definitions::{ActionType, ApplySpec, EntityType, NamespaceDefinition};
use cedar_json_fault::{ConditionalName, RawName, qualify_names};
use cedar_types::{InternalName, Mem};
use std::alloc::Global;

impl NamespaceDefinition<RawName> {
    /// The definitions with the full names that each name may stand for in the namespace `ns`. All else stays, places too.
    pub fn conditionally_qualify_type_references(
        self,
        alloc: Global,
        ns: Option<&InternalName>,
    ) -> Mem<NamespaceDefinition<ConditionalName>>
        ensures answer { Makes result
            (through_namespace over_raw over_conditional
            (qualifying (option_copied ns.entry)) self) }
        ensures same { IfOk result (λ made. bare_namespace made ≡ bare_namespace self) }
    {
        qualify_names(alloc, ns, self)
    }
}

impl EntityType<RawName> {
    /// As on the definitions of a namespace.
    pub fn conditionally_qualify_type_references(
        self,
        alloc: Global,
        ns: Option<&InternalName>,
    ) -> Mem<EntityType<ConditionalName>>
        ensures { Makes result (through_entity (qualifying (option_copied ns.entry)) self) }
    {
        qualify_names(alloc, ns, self)
    }
}

impl AttributesOrContext<RawName> {
    /// As on the definitions of a namespace.
    pub fn conditionally_qualify_type_references(
        self,
        alloc: Global,
        ns: Option<&InternalName>,
    ) -> Mem<AttributesOrContext<ConditionalName>>
        ensures { Makes result (through_shape (qualifying (option_copied ns.entry)) self) }
    {
        qualify_names(alloc, ns, self)
    }
}

impl ActionType<RawName> {
    /// As on the definitions of a namespace.
    pub fn conditionally_qualify_type_references(
        self,
        alloc: Global,
        ns: Option<&InternalName>,
    ) -> Mem<ActionType<ConditionalName>>
        ensures { Makes result
            (through_action over_raw over_conditional (qualifying (option_copied ns.entry)) self) }
    {
        qualify_names(alloc, ns, self)
    }
}

impl ApplySpec<RawName> {
    /// As on the definitions of a namespace.
    pub fn conditionally_qualify_type_references(
        self,
        alloc: Global,
        ns: Option<&InternalName>,
    ) -> Mem<ApplySpec<ConditionalName>>
        ensures { Makes result (through_apply (qualifying (option_copied ns.entry)) self) }
    {
        qualify_names(alloc, ns, self)
    }
}

impl ActionEntityUID<RawName> {
    /// As on the definitions of a namespace.
    pub fn conditionally_qualify_type_references(
        self,
        alloc: Global,
        ns: Option<&InternalName>,
    ) -> Mem<ActionEntityUID<ConditionalName>>
        ensures { Makes result
            (through_uid over_raw over_conditional (qualifying (option_copied ns.entry)) self) }
    {
        qualify_names(alloc, ns, self)
    }
}
