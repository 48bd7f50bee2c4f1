// SPDX-License-Identifier: Apache-2.0
//! The world that definitions declare together, and the schema that a world denotes, as definitions. Code stands above
//! them.
#![tactic(auto)]
