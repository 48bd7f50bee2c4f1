// SPDX-License-Identifier: Apache-2.0
//! Generated schemas: texts in the human syntax of any size, on which the program is measured.
#![tactic(auto)]

mod generating;

pub use generating::generate;
