// SPDX-License-Identifier: Apache-2.0
//! What common types and uses of types unfold to, and why they don't, as definitions. Code stands above them.
#![tactic(auto)]
