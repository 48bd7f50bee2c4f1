// SPDX-License-Identifier: Apache-2.0
//! Laws of what printed fragments declare.
#![tactic(auto)]
