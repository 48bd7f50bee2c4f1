// SPDX-License-Identifier: Apache-2.0
/// What is known of a position.
#[derive(Clone, Copy, PartialEq, Eq)]
pub(crate) enum Mark {
    New,
    Open,
    Done,
}
