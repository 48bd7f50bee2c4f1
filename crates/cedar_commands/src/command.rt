// SPDX-License-Identifier: Apache-2.0

use cedar_data::{Dup, Mem};
use std::alloc::Global;

/// What the program is asked to do.
#[derive(Clone, Copy, Debug, PartialEq, Eq)]
pub enum Command {
    /// To list the schema that a text in the human syntax denotes, with its warnings.
    Resolve,
    /// To list the schema that a text in JSON denotes.
    ResolveJson,
    /// To count what the schema has that a text in the human syntax denotes.
    Check,
    /// To write in JSON what a text in the human syntax declares.
    ToJson,
    /// To write in the human syntax what a text in JSON declares.
    ToCedar,
    /// To review what an object in JSON holds.
    Review(Review),
    /// To count what the generated schema of this size has.
    Bench(u32),
}

/// What is asked of an object in JSON that holds schemas, and perhaps data.
#[derive(Clone, Copy, Debug, PartialEq, Eq)]
pub enum Review {
    /// Whether entities conform to a schema.
    Conform,
    /// To which request environments of a schema requests belong.
    Request,
    /// What several schemas declare together.
    Merge,
    /// Whether what conforms to an old schema conforms to a new one.
    Compat,
}

impl Dup for Command {
    fn dup(&self, _alloc: Global) -> Mem<Command> {
        Ok(*self)
    }
}

impl Dup for Review {
    fn dup(&self, _alloc: Global) -> Mem<Review> {
        Ok(*self)
    }
}
