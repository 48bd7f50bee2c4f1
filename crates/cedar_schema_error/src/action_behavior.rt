// SPDX-License-Identifier: Apache-2.0
ghost use Rattle.std.specs.Prelude.{◌≡◌};
ghost use Rattle.cedar_schema_error.specs.declared.action_behavior.ActionBehavior.TheVariants.{ProhibitAttributes};

use cedar_names::{Dup, Mem};
use std::alloc::Global;

/// Whether an action may have attributes.
#[derive(Clone, Copy, Debug, PartialEq, Eq)]
pub enum ActionBehavior {
    /// An action with attributes is refused.
    ProhibitAttributes,
    /// An action may have attributes.
    PermitAttributes,
}

impl Default for ActionBehavior {
    ghost is_default = { λ behavior. behavior ≡ ProhibitAttributes };

    fn default() -> ActionBehavior {
        ActionBehavior::ProhibitAttributes
    }
}

impl Dup for ActionBehavior {
    fn dup(&self, _alloc: Global) -> Mem<ActionBehavior> {
        Ok(*self)
    }
}
