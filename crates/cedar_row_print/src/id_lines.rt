// SPDX-License-Identifier: Apache-2.0
use cedar_data::{Failure, Mem, NoMemory};
use cedar_names::UnreservedId;
use cedar_written::CommonTypeId;
use std::alloc::Global;

/// `common-type-id`: the input as the id of a common type, or why it is refused.
pub fn common_type_id(alloc: Global, input: &str) -> Mem<String> {
    match UnreservedId::from_normalized_str(alloc, input) {
        Ok(id) => told(alloc, id),
        Err(Failure::Refused(fault)) => Ok(format!(in alloc; "no id: {fault}\n")?),
        Err(Failure::NoMemory) => Err(NoMemory),
    }
}

fn told(alloc: Global, id: UnreservedId) -> Mem<String> {
    match CommonTypeId::new(id) {
        Ok(id) => Ok(format!(in alloc; "{id}\n")?),
        Err(error) => Ok(format!(in alloc; "refused: {error}\n")?),
    }
}
