// SPDX-License-Identifier: Apache-2.0
ghost use Rattle.std.specs.Prelude.{◌≡◌, Ok, Err, IfOk};
ghost use Rattle.cedar_data.specs.declared.memory.Failure.TheVariants.{Refused};
ghost use Rattle.cedar_text.specs.Failures.{IfRefused};
ghost use Rattle.cedar_request.specs.RequestChecks.{IsOf};

use crate::fault::RequestFault;
use cedar_conform::Fault;
use cedar_data::{Failure, Out};

/// Refuses for this. It takes no memory.
pub(crate) fn refuse<T>(fault: RequestFault) -> Out<T, RequestFault>
    ensures { result ≡ Err (Refused fault) }
{
    Err(Failure::Refused(fault))
}

/// The same answer about a value of requests.
pub(crate) fn of_value<T: Drop>(read: Out<T, Fault>) -> Out<T, RequestFault>
    ensures ok { IfOk result (λ v. read ≡ Ok v) }
    ensures refused { IfRefused result (IsOf read) }
{
    match read {
        Ok(value) => Ok(value),
        Err(Failure::NoMemory) => Err(Failure::NoMemory),
        Err(Failure::Refused(fault)) => refuse(RequestFault::Value(fault)),
    }
}
