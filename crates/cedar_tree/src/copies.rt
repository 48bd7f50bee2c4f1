// SPDX-License-Identifier: Apache-2.0
ghost use Rattle.std.specs.Prelude.{◌≡◌};

use crate::declaration::{
    ActionDecl, AppDecl, ContextDecl, Declaration, EntityDecl, EnumEntityDecl, Namespace, PR,
    PRAppDecl, StandardEntityDecl, TypeDecl,
};
use cedar_names::{Dup, Mem, dup_four, dup_three, dup_two};
use std::alloc::Global;

impl Dup for Namespace {
    fn dup(&self, alloc: Global) -> Mem<Namespace> {
        let (name, decls, loc) = dup_three(alloc, &self.name, &self.decls, &self.loc)?;
        Ok(Namespace { name, decls, loc })
    }
}

impl Dup for Declaration {
    fn dup(&self, alloc: Global) -> Mem<Declaration> {
        match self {
            Declaration::Entity(decl) => {
                let decl = decl.dup(alloc)?;
                Ok(Declaration::Entity(decl))
            }
            Declaration::Action(decl) => {
                let decl = decl.dup(alloc)?;
                Ok(Declaration::Action(decl))
            }
            Declaration::Common(decl) => {
                let decl = decl.dup(alloc)?;
                Ok(Declaration::Common(decl))
            }
        }
    }
}

impl Dup for TypeDecl {
    fn dup(&self, alloc: Global) -> Mem<TypeDecl> {
        let (name, def) = dup_two(alloc, &self.name, &self.def)?;
        Ok(TypeDecl { name, def })
    }
}

impl Dup for EntityDecl {
    fn dup(&self, alloc: Global) -> Mem<EntityDecl> {
        match self {
            EntityDecl::Standard(decl) => {
                let decl = decl.dup(alloc)?;
                Ok(EntityDecl::Standard(decl))
            }
            EntityDecl::Enum(decl) => {
                let decl = decl.dup(alloc)?;
                Ok(EntityDecl::Enum(decl))
            }
        }
    }
}

impl Dup for StandardEntityDecl {
    fn dup(&self, alloc: Global) -> Mem<StandardEntityDecl> {
        let (names, member_of_types, attrs, tags) = dup_four(
            alloc,
            &self.names,
            &self.member_of_types,
            &self.attrs,
            &self.tags,
        )?;
        Ok(StandardEntityDecl {
            names,
            member_of_types,
            attrs,
            tags,
        })
    }
}

impl Dup for EnumEntityDecl {
    fn dup(&self, alloc: Global) -> Mem<EnumEntityDecl> {
        let (names, choices) = dup_two(alloc, &self.names, &self.choices)?;
        Ok(EnumEntityDecl { names, choices })
    }
}

impl Dup for PR {
    fn dup(&self, _alloc: Global) -> Mem<PR> {
        Ok(*self)
    }
}

impl Dup for PRAppDecl {
    fn dup(&self, alloc: Global) -> Mem<PRAppDecl> {
        let kind = self.kind.dup(alloc)?;
        let entity_tys = self.entity_tys.dup(alloc)?;
        Ok(PRAppDecl { kind, entity_tys })
    }
}

impl Dup for ContextDecl {
    fn dup(&self, alloc: Global) -> Mem<ContextDecl> {
        match self {
            ContextDecl::Path(path) => {
                let path = path.dup(alloc)?;
                Ok(ContextDecl::Path(path))
            }
            ContextDecl::Record(attrs) => {
                let attrs = attrs.dup(alloc)?;
                Ok(ContextDecl::Record(attrs))
            }
        }
    }
}

impl Dup for AppDecl {
    fn dup(&self, alloc: Global) -> Mem<AppDecl> {
        match self {
            AppDecl::PR(decl) => {
                let decl = decl.dup(alloc)?;
                Ok(AppDecl::PR(decl))
            }
            AppDecl::Context(decl) => {
                let decl = decl.dup(alloc)?;
                Ok(AppDecl::Context(decl))
            }
        }
    }
}

impl Dup for ActionDecl {
    fn dup(&self, alloc: Global) -> Mem<ActionDecl> {
        let (names, parents, app_decls) = dup_three(
            alloc,
            &self.names,
            &self.parents,
            &self.app_decls,
        )?;
        Ok(ActionDecl {
            names,
            parents,
            app_decls,
        })
    }
}
