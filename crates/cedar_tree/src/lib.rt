// SPDX-License-Identifier: Apache-2.0
//! The trees of the human schema syntax, with their places: plain values that a parser makes.
#![tactic(auto)]

mod annotated;
mod copies;
mod declaration;
mod nesting;
mod parse_error;
mod path;
mod ty;

pub use annotated::{Annotated, deduplicate_annotations};
pub use cedar_names::{Annotations, Id, Loc, NonEmpty, NonEmptyIter, Span, UnreservedId};
pub use declaration::{
    ActionDecl, AppDecl, ContextDecl, Decl, Declaration, EntityDecl, EnumEntityDecl, Namespace, PR,
    PRAppDecl, Schema, StandardEntityDecl, TypeDecl,
};
pub use nesting::first_too_deep;
pub use parse_error::{ParseError, ParseErrorKind, ParseErrors, UserError};
pub use path::{Path, PathIntoIter, PathIter, QualName};
pub use ty::{AttrDecl, BUILTIN_TYPES, PrimitiveType, Type};
