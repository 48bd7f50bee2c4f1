// SPDX-License-Identifier: Apache-2.0
ghost use Rattle.std.specs.Prelude.{◌≡◌, [], decimal, Ok, Err, IfOk};
ghost use Rattle.cedar_text.specs.Failures.{IfRefused};
ghost use Rattle.serde_json.specs.View.{view};
ghost use Rattle.cedar_data.specs.declared.memory.Failure.TheVariants.{Refused};
ghost use Rattle.cedar_json_types.specs.Faults.{kind};
ghost use Rattle.cedar_conform_fault.specs.declared.kind.FaultKind.TheVariants as kinds;
ghost use Rattle.cedar_conform.specs.Checks.{IsBehind};

use cedar_conform_fault::{Fault, FaultKind};
use cedar_data::{Failure, Items, Out};
use cedar_json_fault::JsonKind;
use cedar_json_types::kind_of;
use serde_json::Value;
use std::alloc::Global;

/// Refuses the value itself for this. It takes no memory.
pub fn refuse<T>(alloc: Global, kind: FaultKind) -> Out<T, Fault>
    ensures { result ≡ Err (Refused (record { path = []; kind = kind })) }
{
    Err(Failure::Refused(Fault {
        path: Items::new(alloc),
        kind,
    }))
}

/// Refuses the value for its kind. It takes no memory.
pub fn wrong_kind<T>(alloc: Global, value: &Value, wanted: JsonKind) -> Out<T, Fault>
    ensures { result ≡ Err (Refused
        (record { path = []; kind = kinds.WrongKind (kind (view value.now)) wanted })) }
{
    let found = kind_of(value);
    refuse(alloc, FaultKind::WrongKind { found, wanted })
}

/// The same answer, with the key before the path where it is a refusal.
pub fn under<T: Drop>(alloc: Global, key: &str, read: Out<T, Fault>) -> Out<T, Fault>
    ensures ok { IfOk result (λ v. read ≡ Ok v) }
    ensures refused { IfRefused result (IsBehind key.now read) }
{
    match read {
        Ok(value) => Ok(value),
        Err(Failure::NoMemory) => Err(Failure::NoMemory),
        Err(Failure::Refused(fault)) => {
            let fault = fault.behind(alloc, key)?;
            Err(Failure::Refused(fault))
        }
    }
}

/// The same answer, with the place before the path where it is a refusal.
pub fn under_place<T: Drop>(alloc: Global, place: usize, read: Out<T, Fault>) -> Out<T, Fault>
    ensures ok { IfOk result (λ v. read ≡ Ok v) }
    ensures refused { IfRefused result (IsBehind (decimal place) read) }
{
    match read {
        Ok(value) => Ok(value),
        Err(Failure::NoMemory) => Err(Failure::NoMemory),
        Err(Failure::Refused(fault)) => {
            let digits = place.to_string(alloc)?;
            under(alloc, digits.as_str(), Err(Failure::Refused(fault)))
        }
    }
}
