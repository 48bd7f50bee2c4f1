// SPDX-License-Identifier: Apache-2.0
use cedar_data::Near;

/// Where the last searches for the parts of nodes ended. The nodes are made in the order of their keys, so that each
/// search ends a little behind the last one.
#[derive(Drop)]
pub(crate) struct Searches {
    /// Among children.
    pub(crate) children: Near,
    /// Among shapes.
    pub(crate) shapes: Near,
    /// Among types of tags.
    pub(crate) tags: Near,
    /// Among contexts.
    pub(crate) contexts: Near,
}

impl Searches {
    /// No search was made.
    pub(crate) fn none() -> Searches {
        Searches {
            children: Near::first(),
            shapes: Near::first(),
            tags: Near::first(),
            contexts: Near::first(),
        }
    }
}
