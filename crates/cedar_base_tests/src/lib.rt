// SPDX-License-Identifier: Apache-2.0
//! Tests of the base data, of texts, names, tokens, types, closures, streams, trees, errors of the syntax and nodes of
//! a schema: what no row can say, as copies and their places, collections, and what is built by calls. A test is a list
//! of plain answers, each worked out by a small function in which few values live, since the proof of a test grows with
//! the square of what lives there.
#![tactic(auto)]

#[cfg(test)]
mod breaking;
#[cfg(test)]
mod collecting;
#[cfg(test)]
mod collections;
#[cfg(test)]
mod copies;
#[cfg(test)]
mod fault_copies;
#[cfg(test)]
mod holding;
#[cfg(test)]
mod lists_of_errors;
#[cfg(test)]
mod making;
#[cfg(test)]
mod memory_streams;
#[cfg(test)]
mod name_calls;
#[cfg(test)]
mod nodes;
#[cfg(test)]
mod refusals;
#[cfg(test)]
mod std_streams;
#[cfg(test)]
mod tree_making;
#[cfg(test)]
mod trees;
#[cfg(test)]
mod type_calls;
