// SPDX-License-Identifier: Apache-2.0
ghost use Rattle.std.specs.Prelude.{◌≡◌, IfOk, unwrap_or};
ghost use Rattle.std.specs.Coded.{Coded-set};
ghost use Rattle.std.specs.Option.{option_copied};
ghost use Rattle.cedar_print.specs.of_names.Components.{qualified};
ghost use Rattle.cedar_written.specs.Answers.{Answers, Makes};
ghost use Rattle.cedar_written.specs.Bare.{bare_type};
ghost use Rattle.cedar_written.specs.Possibilities.{conditional, ids_of};
ghost use Rattle.cedar_written.specs.Qualifying.{action_name, qualifying};
ghost use Rattle.cedar_written.specs.Reference.{parent};
ghost use Rattle.cedar_written.specs.Through.{through_attribute, through_record, through_type, through_variant};

use crate::conditional_name::ConditionalName;
use crate::qualified::qualify_names;
use crate::raw_name::{RawName, namespace_within};
use crate::reference_type::ReferenceType;
use crate::step::Step;
use crate::ty::{RecordType, SchemaType, TypeOfAttribute, TypeVariant};
use crate::walked::Walk;
use cedar_print::{Failure, InternalName, Mem, Namespace, NoMemory, Out, Text, UnreservedId};
use std::alloc::Global;

/// A refusal that never comes.
#[derive(Drop)]
pub enum Never {}

/// The step that gives each written name the full names that it may stand for in a namespace.
#[derive(Drop)]
pub struct Qualifying<'a> {
    /// The namespace, none for the unnamed one.
    pub namespace: Option<&'a InternalName>,
    /// The same as the namespace of all names that the step qualifies.
    within: Option<Namespace>,
    pub ghost held: { within ≡ ids_of (option_copied namespace) } by { Coded-set within-code _ _ },
}

impl<'a> Qualifying<'a> {
    /// The step of the namespace, none for the unnamed one. All names that it qualifies share the memory of the
    /// namespace. It fails only for want of memory.
    pub fn new(alloc: Global, namespace: Option<&'a InternalName>) -> Mem<Qualifying<'a>>
        ensures { IfOk result (λ step. option_copied step.namespace
            ≡ option_copied namespace.entry) }
    {
        let within = namespace_within(alloc, namespace)?;
        Ok(Qualifying { namespace, within })
    }

    /// The name within the namespace, whose memory it shares, unless it has a namespace already.
    pub fn qualified(&self, alloc: Global, name: InternalName) -> Mem<InternalName>
        ensures { IfOk result (λ n. n ≡ qualified name (option_copied self.now.namespace)) }
    {
        name.qualify_within(alloc, self.within.as_ref())
    }

    /// The name with the full names that it may stand for in the namespace, at a place of this kind.
    fn full_names(&self, alloc: Global, kind: ReferenceType, name: RawName) -> Mem<ConditionalName>
        ensures { IfOk result (λ n. n
            ≡ conditional (option_copied self.now.namespace) kind name) }
    {
        name.conditionally_qualify_within(alloc, self.within.as_ref(), kind)
    }
}

impl<'a> Step<RawName> for Qualifying<'a> {
    type Made = ConditionalName;

    type Refusal = Never;

    ghost step = { λ s. qualifying (option_copied s.namespace) };

    fn go(&self, alloc: Global, kind: ReferenceType, name: RawName) -> Out<ConditionalName, Never> {
        Ok(self.full_names(alloc, kind, name)?)
    }

    fn go_parent(
        &self,
        alloc: Global,
        id: &Text,
        ty: Option<RawName>,
    ) -> Out<ConditionalName, Never>
        ensures { Answers result
            (qualifying (option_copied self.now.namespace) (parent id.now ty)) }
    {
        let name = type_or_action(alloc, ty)?;
        Ok(self.full_names(alloc, ReferenceType::Entity, name)?)
    }
}

/// The type of an action parent, where no type stands for `Action`.
pub fn type_or_action(alloc: Global, ty: Option<RawName>) -> Mem<RawName>
    ensures { IfOk result (λ name. name ≡ unwrap_or ty action_name) }
{
    match ty {
        None => {
            let id = UnreservedId::known(alloc, "Action")?;
            Ok(RawName::new_from_unreserved(alloc, id, None))
        }
        Some(name) => Ok(name),
    }
}

/// The walk of a step that never refuses. It fails only for want of memory.
pub fn walk_unrefused<N, S: Step<N, Refusal = Never>, W: Walk<N, S>>(
    alloc: Global,
    step: &S,
    whole: W,
) -> Mem<W::Full>
    ensures { Makes result (W.through step.now whole) }
{
    match whole.walk(alloc, step) {
        Ok(made) => Ok(made),
        Err(Failure::Refused(never)) => match never {},
        Err(Failure::NoMemory) => Err(NoMemory),
    }
}

impl SchemaType<RawName> {
    /// The type with the full names that each name may stand for in the namespace `ns`. All else stays, places too.
    pub fn conditionally_qualify_type_references(
        self,
        alloc: Global,
        ns: Option<&InternalName>,
    ) -> Mem<SchemaType<ConditionalName>>
        ensures answer { Makes result (through_type (qualifying (option_copied ns.entry)) self) }
        ensures same { IfOk result (λ made. bare_type made ≡ bare_type self) }
    {
        qualify_names(alloc, ns, self)
    }
}

impl TypeVariant<RawName> {
    /// As on a type.
    pub fn conditionally_qualify_type_references(
        self,
        alloc: Global,
        ns: Option<&InternalName>,
    ) -> Mem<TypeVariant<ConditionalName>>
        ensures { Makes result (through_variant (qualifying (option_copied ns.entry)) self) }
    {
        qualify_names(alloc, ns, self)
    }
}

impl RecordType<RawName> {
    /// As on a type.
    pub fn conditionally_qualify_type_references(
        self,
        alloc: Global,
        ns: Option<&InternalName>,
    ) -> Mem<RecordType<ConditionalName>>
        ensures { Makes result (through_record (qualifying (option_copied ns.entry)) self) }
    {
        qualify_names(alloc, ns, self)
    }
}

impl TypeOfAttribute<RawName> {
    /// As on a type.
    pub fn conditionally_qualify_type_references(
        self,
        alloc: Global,
        ns: Option<&InternalName>,
    ) -> Mem<TypeOfAttribute<ConditionalName>>
        ensures { Makes result (through_attribute (qualifying (option_copied ns.entry)) self) }
    {
        qualify_names(alloc, ns, self)
    }
}
