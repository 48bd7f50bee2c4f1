// SPDX-License-Identifier: Apache-2.0
//! Proofs that what is printed of a fragment are its tokens, none of which runs into the next.
#![tactic(auto)]
