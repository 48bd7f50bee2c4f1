// SPDX-License-Identifier: Apache-2.0
ghost use Rattle.std.specs.Prelude.{Bool, true, false};

use crate::conditional_name::ConditionalName;
use crate::raw_name::RawName;
use cedar_print::{InternalName, Name};

/// Names that may stand in a fragment.
pub trait RefName {
    /// Whether the parent of an action may lack its type, which then is `Action`.
    ghost may_lack_type: { Bool };
}

impl RefName for RawName {
    ghost may_lack_type = { true };
}

impl RefName for ConditionalName {
    ghost may_lack_type = { false };
}

impl RefName for InternalName {
    ghost may_lack_type = { false };
}

impl RefName for Name {
    ghost may_lack_type = { false };
}
