// SPDX-License-Identifier: Apache-2.0
ghost use Rattle.std.specs.Prelude.{◌≡◌, [], ◌∷◌, Ok, Err, IfOk};
ghost use Rattle.cedar_data.specs.Answers.{IfRefused};
ghost use Rattle.cedar_data.specs.declared.memory.Failure.TheVariants.{Refused};
ghost use Rattle.cedar_compat.specs.Checks.{IsBehind, IsOfType};
ghost use Rattle.cedar_compat.specs.KeptNames.{KeepsOf};

use crate::fault::CompatFault;
use crate::kind::CompatKind;
use cedar_conform_fault::behind_key;
use cedar_data::{Dup, Failure, Items, Mem, Out, Text};
use cedar_names::EntityType;
use std::alloc::Global;

/// What is taken away, and what leads to it within an entity type.
#[derive(Drop)]
pub(crate) struct Broken {
    pub(crate) path: Items<Text>,
    pub(crate) kind: CompatKind,
}

impl Broken {
    /// The same, behind this key.
    fn behind(self, alloc: Global, key: &str) -> Mem<Broken>
        ensures { IfOk result (λ broken. (broken.path ≡ key.now ∷ self.path)
            × (broken.kind ≡ self.kind)) }
    {
        let Broken { path, kind } = self;
        let (path, kind) = behind_key(alloc, key, path, kind)?;
        Ok(Broken { path, kind })
    }

    /// The same, as a fault of this entity type.
    fn into_fault(self, alloc: Global, ty: &EntityType) -> Mem<CompatFault>
        ensures { IfOk result (λ fault. (fault.ty ≡ ty.now) × (fault.path ≡ self.path)
            × (fault.kind ≡ self.kind)) }
    {
        let ty = ty.dup(alloc)?;
        let Broken { path, kind } = self;
        Ok(CompatFault { ty, path, kind })
    }
}

/// Refuses for this, at the empty path. It takes no memory.
pub(crate) fn refuse(alloc: Global, kind: CompatKind) -> Out<(), Broken>
    ensures { result ≡ Err (Refused (record { path = []; kind = kind })) }
{
    Err(Failure::Refused(Broken {
        path: Items::new(alloc),
        kind,
    }))
}

/// The same answer, with the key before the path where it is a refusal.
pub(crate) fn under(alloc: Global, key: &str, read: Out<(), Broken>) -> Out<(), Broken>
    ensures ok { IfOk result (λ u. read ≡ Ok u) }
    ensures refused { IfRefused result (IsBehind key.now read) }
{
    match read {
        Ok(()) => Ok(()),
        Err(Failure::NoMemory) => Err(Failure::NoMemory),
        Err(Failure::Refused(broken)) => {
            let broken = broken.behind(alloc, key)?;
            Err(Failure::Refused(broken))
        }
    }
}

/// The same answer, with the entity type where it is a refusal.
pub(crate) fn of_type(alloc: Global, ty: &EntityType, read: Out<(), Broken>) -> Out<(), CompatFault>
    ensures ok { IfOk result (λ u. read ≡ Ok u) }
    ensures refused { IfRefused result (IsOfType ty.now read) }
    ensures kept { IfRefused result (KeepsOf ty.now read) }
{
    match read {
        Ok(()) => Ok(()),
        Err(Failure::NoMemory) => Err(Failure::NoMemory),
        Err(Failure::Refused(broken)) => {
            let fault = broken.into_fault(alloc, ty)?;
            Err(Failure::Refused(fault))
        }
    }
}
