// SPDX-License-Identifier: Apache-2.0
ghost use Rattle.std.specs.Prelude.{Some};
ghost use Rattle.std.specs.Fmt.{WritesOnOk};
ghost use Rattle.cedar_request.specs.FaultTexts.{not_allowed_text};

use cedar_conform::Fault;
use cedar_data::{Dup, Mem, dup_two};
use cedar_names::{EntityType, EntityUID};
use std::alloc::Global;
use std::error::Error;
use std::fmt;

/// What is wrong with a list of requests that has to fit a schema. A place is that of a request in the list, counted
/// from 0.
#[derive(Debug, Drop, PartialEq, Eq)]
pub enum RequestFault {
    /// A value doesn't fit: the list, a request, or what stands in one. The path begins with the request's place.
    Value(Fault),
    /// The schema has no such action.
    UnknownAction {
        at: u64,
        uid: EntityUID,
    },
    /// The action isn't for principals of this type.
    PrincipalNotAllowed {
        at: u64,
        action: EntityUID,
        ty: EntityType,
    },
    /// The action isn't for resources of this type.
    ResourceNotAllowed {
        at: u64,
        action: EntityUID,
        ty: EntityType,
    },
}

/// Writes that the type is none of those of the action that the word names.
fn write_not_allowed<W: fmt::Write>(
    at: u64,
    ty: &EntityType,
    word: &str,
    action: &EntityUID,
    f: &mut fmt::Formatter<W>,
) -> fmt::Result
    ensures { WritesOnOk W.write_str_gives f.old result
        (not_allowed_text at ty.now word.now action.now) f.new }
{
    write!(f, "at {at}: `{ty}`")?;
    write!(f, " is not a {word} type of {action}")
}

impl fmt::Display for RequestFault {
    ghost use Rattle.cedar_request.specs.FaultTexts.{request_fault_text};

    ghost output = { λ fault. Some (request_fault_text fault) };

    fn fmt<W: fmt::Write>(&self, f: &mut fmt::Formatter<W>) -> fmt::Result {
        match self {
            RequestFault::Value(fault) => fault.fmt(f),
            RequestFault::UnknownAction { at, uid } => {
                write!(f, "at {at}: unknown action {uid}")
            }
            RequestFault::PrincipalNotAllowed { at, action, ty } => {
                write_not_allowed(*at, ty, "principal", action, f)
            }
            RequestFault::ResourceNotAllowed { at, action, ty } => {
                write_not_allowed(*at, ty, "resource", action, f)
            }
        }
    }
}

impl Error for RequestFault {}

impl Dup for RequestFault {
    fn dup(&self, alloc: Global) -> Mem<RequestFault> {
        match self {
            RequestFault::Value(fault) => {
                let fault = fault.dup(alloc)?;
                Ok(RequestFault::Value(fault))
            }
            RequestFault::UnknownAction { at, uid } => {
                let uid = uid.dup(alloc)?;
                Ok(RequestFault::UnknownAction { at: *at, uid })
            }
            RequestFault::PrincipalNotAllowed { at, action, ty } => {
                let (action, ty) = dup_two(alloc, action, ty)?;
                Ok(RequestFault::PrincipalNotAllowed {
                    at: *at,
                    action,
                    ty,
                })
            }
            RequestFault::ResourceNotAllowed { at, action, ty } => {
                let (action, ty) = dup_two(alloc, action, ty)?;
                Ok(RequestFault::ResourceNotAllowed {
                    at: *at,
                    action,
                    ty,
                })
            }
        }
    }
}
