// SPDX-License-Identifier: Apache-2.0
//! What a resolved schema is as a plain one, and what checks by it share: what it has under the name of an entity type,
//! and laws of steps.
#![tactic(auto)]
