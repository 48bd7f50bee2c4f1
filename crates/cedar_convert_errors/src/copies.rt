// SPDX-License-Identifier: Apache-2.0
ghost use Rattle.std.specs.Prelude.{◌≡◌};

use crate::faults::{
    DuplicateAttribute, DuplicateContext, DuplicateDeclarations, DuplicateNamespace,
    DuplicatePrincipalOrResource, NoPrincipalOrResource, ReservedName, ReservedSchemaKeyword,
    ToJsonSchemaError, UnknownTypeName,
};
use cedar_data::{Dup, Mem};
use std::alloc::Global;

impl Dup for DuplicateDeclarations {
    fn dup(&self, alloc: Global) -> Mem<DuplicateDeclarations> {
        let decl = self.decl.dup(alloc)?;
        let loc1 = self.loc1.dup(alloc)?;
        let loc2 = self.loc2.dup(alloc)?;
        Ok(DuplicateDeclarations { decl, loc1, loc2 })
    }
}

impl Dup for DuplicateContext {
    fn dup(&self, alloc: Global) -> Mem<DuplicateContext> {
        let name = self.name.dup(alloc)?;
        let loc1 = self.loc1.dup(alloc)?;
        let loc2 = self.loc2.dup(alloc)?;
        Ok(DuplicateContext { name, loc1, loc2 })
    }
}

impl Dup for DuplicatePrincipalOrResource {
    fn dup(&self, alloc: Global) -> Mem<DuplicatePrincipalOrResource> {
        let name = self.name.dup(alloc)?;
        let loc1 = self.loc1.dup(alloc)?;
        let loc2 = self.loc2.dup(alloc)?;
        Ok(DuplicatePrincipalOrResource {
            name,
            kind: self.kind,
            loc1,
            loc2,
        })
    }
}

impl Dup for NoPrincipalOrResource {
    fn dup(&self, alloc: Global) -> Mem<NoPrincipalOrResource> {
        let name = self.name.dup(alloc)?;
        let name_loc = self.name_loc.dup(alloc)?;
        let empty_loc = self.empty_loc.dup(alloc)?;
        Ok(NoPrincipalOrResource {
            name,
            kind: self.kind,
            name_loc,
            empty_loc,
        })
    }
}

impl Dup for DuplicateNamespace {
    fn dup(&self, alloc: Global) -> Mem<DuplicateNamespace> {
        let namespace_id = self.namespace_id.dup(alloc)?;
        let loc1 = self.loc1.dup(alloc)?;
        let loc2 = self.loc2.dup(alloc)?;
        Ok(DuplicateNamespace {
            namespace_id,
            loc1,
            loc2,
        })
    }
}

impl Dup for UnknownTypeName {
    fn dup(&self, alloc: Global) -> Mem<UnknownTypeName> {
        let name = self.name.dup(alloc)?;
        let loc = self.loc.dup(alloc)?;
        Ok(UnknownTypeName { name, loc })
    }
}

impl Dup for ReservedName {
    fn dup(&self, alloc: Global) -> Mem<ReservedName> {
        let name = self.name.dup(alloc)?;
        let loc = self.loc.dup(alloc)?;
        Ok(ReservedName { name, loc })
    }
}

impl Dup for ReservedSchemaKeyword {
    fn dup(&self, alloc: Global) -> Mem<ReservedSchemaKeyword> {
        let keyword = self.keyword.dup(alloc)?;
        let loc = self.loc.dup(alloc)?;
        Ok(ReservedSchemaKeyword { keyword, loc })
    }
}

impl Dup for DuplicateAttribute {
    fn dup(&self, alloc: Global) -> Mem<DuplicateAttribute> {
        let name = self.name.dup(alloc)?;
        let loc1 = self.loc1.dup(alloc)?;
        let loc2 = self.loc2.dup(alloc)?;
        Ok(DuplicateAttribute { name, loc1, loc2 })
    }
}

impl Dup for ToJsonSchemaError {
    fn dup(&self, alloc: Global) -> Mem<ToJsonSchemaError> {
        match self {
            ToJsonSchemaError::DuplicateDeclarations(fault) => {
                let fault = fault.dup(alloc)?;
                Ok(ToJsonSchemaError::DuplicateDeclarations(fault))
            }
            ToJsonSchemaError::DuplicateContext(fault) => {
                let fault = fault.dup(alloc)?;
                Ok(ToJsonSchemaError::DuplicateContext(fault))
            }
            ToJsonSchemaError::DuplicatePrincipalOrResource(fault) => {
                let fault = fault.dup(alloc)?;
                Ok(ToJsonSchemaError::DuplicatePrincipalOrResource(fault))
            }
            ToJsonSchemaError::NoPrincipalOrResource(fault) => {
                let fault = fault.dup(alloc)?;
                Ok(ToJsonSchemaError::NoPrincipalOrResource(fault))
            }
            ToJsonSchemaError::DuplicateNamespaces(fault) => {
                let fault = fault.dup(alloc)?;
                Ok(ToJsonSchemaError::DuplicateNamespaces(fault))
            }
            ToJsonSchemaError::UnknownTypeName(fault) => {
                let fault = fault.dup(alloc)?;
                Ok(ToJsonSchemaError::UnknownTypeName(fault))
            }
            ToJsonSchemaError::ReservedName(fault) => {
                let fault = fault.dup(alloc)?;
                Ok(ToJsonSchemaError::ReservedName(fault))
            }
            ToJsonSchemaError::ReservedSchemaKeyword(fault) => {
                let fault = fault.dup(alloc)?;
                Ok(ToJsonSchemaError::ReservedSchemaKeyword(fault))
            }
            ToJsonSchemaError::DuplicateAttribute(fault) => {
                let fault = fault.dup(alloc)?;
                Ok(ToJsonSchemaError::DuplicateAttribute(fault))
            }
        }
    }
}
