// SPDX-License-Identifier: Apache-2.0
//! The tokens that a fragment has in the human syntax, the tree that these are, and the fragment that is read again.
#![tactic(auto)]
