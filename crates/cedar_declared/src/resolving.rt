// SPDX-License-Identifier: Apache-2.0
ghost use Rattle.std.specs.Prelude.{◌≡◌, ℕ, true, Err, IfOk, MatchOption};
ghost use Rattle.cedar_names.specs.Components.{components, has_cedar};
ghost use Rattle.cedar_written.specs.Answers.{Answers};
ghost use Rattle.cedar_written.specs.Reference.{parent};
ghost use Rattle.cedar_schema_error.specs.FullNames.{Uid, uid_in};
ghost use Rattle.cedar_declared.specs.Held.{names_of};
ghost use Rattle.cedar_declared.specs.Names.{is_action};
ghost use Rattle.cedar_declared.specs.Targets.{action_at, found_action, parent_type, resolving, undeclared_action};

use crate::all_defs::AllDefs;
use crate::resolve::ResolveName;
use cedar_data::{Boxed, Dup, Failure, Mem, Out, Text};
use cedar_definitions::{ActionEntityUID, ConditionalName, ReferenceType, Step, type_or_action};
use cedar_names::{Eid, EntityType, EntityUID, InternalName, Name, NonEmpty};
use cedar_schema_error::{ActionNotDefinedError, SchemaError};
use std::alloc::Global;

/// A refusal on the heap, where it makes the answers of a walk no wider.
fn boxed_refusal<T>(alloc: Global, error: SchemaError) -> Out<T, Boxed<SchemaError>>
    ensures { Answers result (Err error) }
{
    let error = Boxed::new(alloc, error)?;
    Err(Failure::Refused(error))
}

/// The same answer, its refusal taken from the heap.
pub fn unboxed<T, E>(answer: Out<T, Boxed<E>>) -> Out<T, E>
    ensures { result ≡ answer }
{
    match answer {
        Ok(made) => Ok(made),
        Err(Failure::Refused(error)) => Err(Failure::Refused(error.into_inner())),
        Err(Failure::NoMemory) => Err(Failure::NoMemory),
    }
}

/// The step that gives each reference the full name that it means among declared names.
#[derive(Drop)]
pub struct Resolving<'a> {
    /// The declared names.
    pub all_defs: &'a AllDefs,
}

impl<'a> Step<ConditionalName> for Resolving<'a> {
    type Made = InternalName;

    type Refusal = Boxed<SchemaError>;

    ghost step = { λ s. resolving (names_of s.all_defs.now) };

    fn go(
        &self,
        alloc: Global,
        _kind: ReferenceType,
        name: ConditionalName,
    ) -> Out<InternalName, Boxed<SchemaError>> {
        match name.resolve(self.all_defs) {
            Ok(name) => Ok(name),
            Err(error) => boxed_refusal(alloc, SchemaError::TypeNotDefined(error)),
        }
    }

    fn go_parent(
        &self,
        alloc: Global,
        id: &Text,
        ty: Option<ConditionalName>,
    ) -> Out<InternalName, Boxed<SchemaError>>
        ensures { Answers result (resolving (names_of self.now.all_defs.now) (parent id.now ty)) }
    {
        let ty = type_of_parent(alloc, ty)?;
        let found = self.all_defs.action_type(alloc, id, &ty)?;
        match found {
            Some(name) => Ok(name),
            None => {
                let error = undeclared(alloc, id, ty)?;
                boxed_refusal(alloc, error)
            }
        }
    }
}

/// The type of the parent of an action, which is `Action` where none is given.
fn type_of_parent(alloc: Global, ty: Option<ConditionalName>) -> Mem<ConditionalName>
    ensures { IfOk result (λ n. n ≡ parent_type ty) }
{
    match ty {
        Some(ty) => Ok(ty),
        None => {
            let name = type_or_action(alloc, None)?;
            let name = name.qualify_with(alloc, None)?;
            ConditionalName::unconditional(alloc, name, ReferenceType::Entity)
        }
    }
}

/// The error that this parent is no declared action.
fn undeclared(alloc: Global, id: &Text, ty: ConditionalName) -> Mem<SchemaError>
    ensures { IfOk result (λ e. e ≡ undeclared_action id.now ty) }
{
    let id = id.dup(alloc)?;
    let uid = ActionEntityUID::<ConditionalName>::with_type(ty, id);
    let uids = NonEmpty::singleton(alloc, uid);
    Ok(SchemaError::ActionNotDefined(ActionNotDefinedError { uids }))
}

impl AllDefs {
    /// The first type that the parent of an action may have and that is, with its id, a declared action.
    fn action_type(
        &self,
        alloc: Global,
        id: &Text,
        ty: &ConditionalName,
    ) -> Mem<Option<InternalName>>
        ensures { IfOk result (λ o. o ≡ found_action (names_of self.now) id.now ty.now) }
    {
        for possibility in ty.possibilities() {
            if self.declares_action(alloc, possibility, id)? {
                let name = possibility.dup(alloc)?;
                return Ok(Some(name));
            }
        }
        Ok(None)
    }

    /// Whether the action of this type and this id is declared.
    fn declares_action(&self, alloc: Global, ty: &InternalName, id: &Text) -> Mem<bool>
        ensures { IfOk result (λ b. b ≡ is_action (names_of self.now) (action_at id.now ty.now)) }
    {
        let uid = action_uid(alloc, ty, id)?;
        match uid {
            None => Ok(false),
            Some(uid) => Ok(self.is_defined_as_action(&uid)),
        }
    }
}

/// The action of this type and this id, unless a component of the type is `__cedar`.
fn action_uid(alloc: Global, ty: &InternalName, id: &Text) -> Mem<Option<EntityUID>>
    ensures { IfOk result (λ o. MatchOption o (has_cedar (components ty.now) ≡ true)
        (λ u. uid_in u ≡ action_at id.now ty.now)) }
{
    let name = ty.dup(alloc)?;
    let id = id.dup(alloc)?;
    match Name::from_internal(name) {
        Err(_) => Ok(None),
        Ok(name) => {
            let ty = EntityType::from_name(name);
            Ok(Some(EntityUID::from_components(ty, Eid::new(id), None)))
        }
    }
}
