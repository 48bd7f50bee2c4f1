// SPDX-License-Identifier: Apache-2.0
ghost use Rattle.std.specs.Prelude.{◌≡◌, length};
ghost use Rattle.cedar_data.specs.declared.memory.Failure.TheVariants.{Refused};

use cedar_data::{Dup, Failure, Mem};
use cedar_tokens::Lexeme;
use std::alloc::Global;

/// Where tokens stop being a schema: so many of them are left, the one at fault counted, or none where all of them stand
/// but a schema would go on.
#[derive(Clone, Copy, Debug, PartialEq, Eq)]
pub struct Fault {
    pub left: usize,
}

impl Dup for Fault {
    fn dup(&self, _alloc: Global) -> Mem<Fault> {
        Ok(*self)
    }
}

/// The refusal where these tokens are left, the one at fault in front.
pub fn stops_before(rest: &[Lexeme<'_>]) -> Failure<Fault>
    ensures { result ≡ Refused (record { left = length rest.now }) }
{
    Failure::Refused(Fault { left: rest.len() })
}
