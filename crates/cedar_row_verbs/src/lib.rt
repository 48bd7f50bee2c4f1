// SPDX-License-Identifier: Apache-2.0
//! What rows ask of names, escapes, extension types, tokens, closures and places: verbs that answer a text with lines.
//! Nothing is promised of the answers but that they come; the rows say what they have to be.
#![tactic(auto)]

mod closure_lines;
mod escape_lines;
mod extension_lines;
mod keys;
mod lists;
mod name_kinds;
mod name_lines;
mod refusals;
mod snippet_lines;
mod token_lines;
mod uid_lines;
mod verbs;
mod vertex;

pub use closure_lines::closure;
pub use escape_lines::{escape, unescape};
pub use extension_lines::extensions;
pub use name_lines::{name, order, qualify};
pub use snippet_lines::snippet;
pub use token_lines::tokens;
pub use uid_lines::{literal, uid};
pub use verbs::answer;
