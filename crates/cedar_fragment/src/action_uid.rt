// SPDX-License-Identifier: Apache-2.0
ghost use Rattle.std.specs.Prelude.{◌||◌, is_some, IsTrue};

use cedar_json_fault::RefName;
use cedar_types::Text;

/// An action as the parent of another: its type and its id. The type may be left out only where names are as written.
#[derive(Debug, Drop, PartialEq, Eq, PartialOrd, Ord, Hash)]
pub struct ActionEntityUID<N: RefName> {
    pub(crate) ty: Option<N>,
    /// The id.
    pub id: Text,
    pub ghost typed: { IsTrue (N.may_lack_type || is_some ty) },
}
