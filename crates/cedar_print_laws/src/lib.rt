// SPDX-License-Identifier: Apache-2.0
//! A law of printed text: it lexes to the tokens of its pieces.
#![tactic(auto)]

mod laws;

pub use laws::printed_tokens;
