// SPDX-License-Identifier: Apache-2.0
ghost use Rattle.std.specs.Prelude.{◌≡◌};
ghost use Rattle.cedar_convert_errors.specs.declared.faults.ToJsonSchemaError.TheVariants as fault_of;

use crate::faults::{
    DuplicateAttribute, DuplicateContext, DuplicateDeclarations, DuplicateNamespace,
    DuplicatePrincipalOrResource, NoPrincipalOrResource, ReservedName, ReservedSchemaKeyword,
    ToJsonSchemaError, UnknownTypeName,
};

impl From<DuplicateDeclarations> for ToJsonSchemaError {
    ghost from_gives = { λ fault error. error ≡ fault_of.DuplicateDeclarations fault };

    fn from(fault: DuplicateDeclarations) -> ToJsonSchemaError {
        ToJsonSchemaError::DuplicateDeclarations(fault)
    }
}

impl From<DuplicateContext> for ToJsonSchemaError {
    ghost from_gives = { λ fault error. error ≡ fault_of.DuplicateContext fault };

    fn from(fault: DuplicateContext) -> ToJsonSchemaError {
        ToJsonSchemaError::DuplicateContext(fault)
    }
}

impl From<DuplicatePrincipalOrResource> for ToJsonSchemaError {
    ghost from_gives = { λ fault error. error ≡ fault_of.DuplicatePrincipalOrResource fault };

    fn from(fault: DuplicatePrincipalOrResource) -> ToJsonSchemaError {
        ToJsonSchemaError::DuplicatePrincipalOrResource(fault)
    }
}

impl From<NoPrincipalOrResource> for ToJsonSchemaError {
    ghost from_gives = { λ fault error. error ≡ fault_of.NoPrincipalOrResource fault };

    fn from(fault: NoPrincipalOrResource) -> ToJsonSchemaError {
        ToJsonSchemaError::NoPrincipalOrResource(fault)
    }
}

impl From<DuplicateNamespace> for ToJsonSchemaError {
    ghost from_gives = { λ fault error. error ≡ fault_of.DuplicateNamespaces fault };

    fn from(fault: DuplicateNamespace) -> ToJsonSchemaError {
        ToJsonSchemaError::DuplicateNamespaces(fault)
    }
}

impl From<UnknownTypeName> for ToJsonSchemaError {
    ghost from_gives = { λ fault error. error ≡ fault_of.UnknownTypeName fault };

    fn from(fault: UnknownTypeName) -> ToJsonSchemaError {
        ToJsonSchemaError::UnknownTypeName(fault)
    }
}

impl From<ReservedName> for ToJsonSchemaError {
    ghost from_gives = { λ fault error. error ≡ fault_of.ReservedName fault };

    fn from(fault: ReservedName) -> ToJsonSchemaError {
        ToJsonSchemaError::ReservedName(fault)
    }
}

impl From<ReservedSchemaKeyword> for ToJsonSchemaError {
    ghost from_gives = { λ fault error. error ≡ fault_of.ReservedSchemaKeyword fault };

    fn from(fault: ReservedSchemaKeyword) -> ToJsonSchemaError {
        ToJsonSchemaError::ReservedSchemaKeyword(fault)
    }
}

impl From<DuplicateAttribute> for ToJsonSchemaError {
    ghost from_gives = { λ fault error. error ≡ fault_of.DuplicateAttribute fault };

    fn from(fault: DuplicateAttribute) -> ToJsonSchemaError {
        ToJsonSchemaError::DuplicateAttribute(fault)
    }
}
