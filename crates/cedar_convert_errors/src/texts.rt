// SPDX-License-Identifier: Apache-2.0
ghost use Rattle.std.specs.Prelude.{◌≡◌, ◌∷◌, IfOk, Some, option_to_list};
ghost use Rattle.std.specs.Option.{option_copied};
ghost use Rattle.std.specs.String.{string_bytes};
ghost use Rattle.cedar_convert_errors.specs.Texts.{attribute_twice_text, context_twice_text, declared_twice_text, fault_places, fault_text, keyword_text, list_twice_text, namespace_twice_text, no_types_text, one_list_help, reserved_text, unknown_text};

use crate::faults::{
    DuplicateAttribute, DuplicateContext, DuplicateDeclarations, DuplicateNamespace,
    DuplicatePrincipalOrResource, NoPrincipalOrResource, ReservedName, ReservedSchemaKeyword,
    ToJsonSchemaError, UnknownTypeName,
};
use cedar_data::Mem;
use cedar_tree::{Loc, PR};
use std::alloc::Global;
use std::error::Error;
use std::fmt;

/// What to do about an action that applies to something, and has no principals or no resources.
pub const NO_PR_HELP_MSG: &str =
    "Every action must define both `principal` and `resource` targets, and the `principal` and `resource` lists must not be `[]`.";

/// What to do about two lists of this kind.
pub(crate) fn list_help(alloc: Global, kind: PR) -> Mem<String>
    ensures { IfOk result (λ help. string_bytes help ≡ one_list_help kind) }
{
    let help = format!(in alloc;
        "Actions may only have a single {kind} declaration, but a {kind} declaration may specify a list of entity types like `{kind}: [X, Y, Z]`"
    )?;
    Ok(help)
}

impl ToJsonSchemaError {
    /// The first place that it keeps, and the second, where it keeps two.
    pub(crate) fn two_places(&self) -> (&Loc, Option<&Loc>)
        ensures { result.0.now ∷ option_to_list (option_copied result.1)
            ≡ fault_places self.now }
    {
        match self {
            ToJsonSchemaError::DuplicateDeclarations(fault) => (&fault.loc1, Some(&fault.loc2)),
            ToJsonSchemaError::DuplicateContext(fault) => (&fault.loc1, Some(&fault.loc2)),
            ToJsonSchemaError::DuplicatePrincipalOrResource(fault) => {
                (&fault.loc1, Some(&fault.loc2))
            }
            ToJsonSchemaError::NoPrincipalOrResource(fault) => {
                (&fault.name_loc, fault.empty_loc.as_ref())
            }
            ToJsonSchemaError::DuplicateNamespaces(fault) => (&fault.loc1, Some(&fault.loc2)),
            ToJsonSchemaError::UnknownTypeName(fault) => (&fault.loc, None),
            ToJsonSchemaError::ReservedName(fault) => (&fault.loc, None),
            ToJsonSchemaError::ReservedSchemaKeyword(fault) => (&fault.loc, None),
            ToJsonSchemaError::DuplicateAttribute(fault) => (&fault.loc1, Some(&fault.loc2)),
        }
    }
}

impl fmt::Display for DuplicateDeclarations {
    ghost output = { λ fault. Some (declared_twice_text fault.decl) };

    fn fmt<W: fmt::Write>(&self, f: &mut fmt::Formatter<W>) -> fmt::Result {
        let name = &self.decl;
        write!(f, "`{name}` is declared twice")
    }
}

impl Error for DuplicateDeclarations {}

impl fmt::Display for DuplicateContext {
    ghost output = { λ fault. Some (context_twice_text fault.name) };

    fn fmt<W: fmt::Write>(&self, f: &mut fmt::Formatter<W>) -> fmt::Result {
        let action = &self.name;
        write!(f, "duplicate context declaration in action `{action}`")
    }
}

impl Error for DuplicateContext {}

impl fmt::Display for DuplicatePrincipalOrResource {
    ghost output = { λ fault. Some (list_twice_text fault.kind fault.name) };

    fn fmt<W: fmt::Write>(&self, f: &mut fmt::Formatter<W>) -> fmt::Result {
        let kind = self.kind;
        let action = &self.name;
        write!(f, "duplicate `{kind}` declaration in action `{action}`")
    }
}

impl Error for DuplicatePrincipalOrResource {}

impl fmt::Display for NoPrincipalOrResource {
    ghost output = { λ fault. Some (no_types_text fault.kind fault.name fault.empty_loc) };

    fn fmt<W: fmt::Write>(&self, f: &mut fmt::Formatter<W>) -> fmt::Result {
        let kind = self.kind;
        let action = &self.name;
        match &self.empty_loc {
            None => write!(f, "missing `{kind}` declaration for `{action}`"),
            Some(_) => write!(
                f,
                "for action `{action}`, `{kind}` is `[]`, which is invalid"
            ),
        }
    }
}

impl Error for NoPrincipalOrResource {}

impl fmt::Display for DuplicateNamespace {
    ghost output = { λ fault. Some (namespace_twice_text fault.namespace_id) };

    fn fmt<W: fmt::Write>(&self, f: &mut fmt::Formatter<W>) -> fmt::Result {
        let name = &self.namespace_id;
        write!(f, "duplicate namespace id: `{name}`")
    }
}

impl Error for DuplicateNamespace {}

impl fmt::Display for UnknownTypeName {
    ghost output = { λ fault. Some (unknown_text fault.name) };

    fn fmt<W: fmt::Write>(&self, f: &mut fmt::Formatter<W>) -> fmt::Result {
        let name = &self.name;
        write!(f, "unknown type name: `{name}`")
    }
}

impl Error for UnknownTypeName {}

impl fmt::Display for ReservedName {
    ghost output = { λ _. Some reserved_text };

    fn fmt<W: fmt::Write>(&self, f: &mut fmt::Formatter<W>) -> fmt::Result {
        write!(f, "use of the reserved `__cedar` namespace")
    }
}

impl Error for ReservedName {}

impl fmt::Display for ReservedSchemaKeyword {
    ghost output = { λ fault. Some (keyword_text fault.keyword) };

    fn fmt<W: fmt::Write>(&self, f: &mut fmt::Formatter<W>) -> fmt::Result {
        let word = &self.keyword;
        write!(f, "this uses a reserved schema keyword: `{word}`")
    }
}

impl Error for ReservedSchemaKeyword {}

impl fmt::Display for DuplicateAttribute {
    ghost output = { λ fault. Some (attribute_twice_text fault.name) };

    fn fmt<W: fmt::Write>(&self, f: &mut fmt::Formatter<W>) -> fmt::Result {
        let name = &self.name;
        write!(f, "attribute `{name}` is declared twice in one record")
    }
}

impl Error for DuplicateAttribute {}

impl fmt::Display for ToJsonSchemaError {
    ghost output = { λ fault. Some (fault_text fault) };

    fn fmt<W: fmt::Write>(&self, f: &mut fmt::Formatter<W>) -> fmt::Result {
        match self {
            ToJsonSchemaError::DuplicateDeclarations(fault) => fault.fmt(f),
            ToJsonSchemaError::DuplicateContext(fault) => fault.fmt(f),
            ToJsonSchemaError::DuplicatePrincipalOrResource(fault) => fault.fmt(f),
            ToJsonSchemaError::NoPrincipalOrResource(fault) => fault.fmt(f),
            ToJsonSchemaError::DuplicateNamespaces(fault) => fault.fmt(f),
            ToJsonSchemaError::UnknownTypeName(fault) => fault.fmt(f),
            ToJsonSchemaError::ReservedName(fault) => fault.fmt(f),
            ToJsonSchemaError::ReservedSchemaKeyword(fault) => fault.fmt(f),
            ToJsonSchemaError::DuplicateAttribute(fault) => fault.fmt(f),
        }
    }
}

impl Error for ToJsonSchemaError {}
