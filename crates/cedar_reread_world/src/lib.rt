// SPDX-License-Identifier: Apache-2.0
//! Laws of worlds that are printed and read again.
#![tactic(auto)]
