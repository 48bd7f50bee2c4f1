// SPDX-License-Identifier: Apache-2.0
ghost use Rattle.std.specs.Prelude.{◌≡◌};

use cedar_data::{Dup, Mem};
use std::alloc::Global;

/// What a schema judges.
#[derive(Clone, Copy, Debug)]
pub enum Judged {
    /// A list of entities.
    Entities,
    /// A list of requests.
    Requests,
}

impl Judged {
    ghost use Rattle.cedar_reviews.specs.Judging.{judged_key};

    /// The key at which it stands.
    pub(crate) fn key(self) -> &'static str
        ensures { result.now ≡ judged_key self }
    {
        match self {
            Judged::Entities => "entities",
            Judged::Requests => "requests",
        }
    }
}

impl Dup for Judged {
    fn dup(&self, _alloc: Global) -> Mem<Judged> {
        Ok(*self)
    }
}
