// SPDX-License-Identifier: Apache-2.0
//! What stands in a source text below its names: words, their normalized forms and what is wrong with them, escapes
//! and string literals, places, and what stands at a place.
#![tactic(auto)]

mod collecting;
mod escapes;
mod fault;
mod form;
mod literal;
mod location;
mod node;
mod non_empty;
mod unescaping;
mod words;

pub use cedar_data::{
    Boxed, Dup, Failure, Items, Map, MapIter, MapKeys, Mem, Near, NoMemory, Out, Set, SetIter,
    Shared, Text, dup_four, dup_three, dup_two,
};
pub use collecting::{Convert, collect, collect_map, push_all, push_elements};
pub use escapes::{Escaped, EscapedByte, escape};
pub use fault::NameFault;
pub use form::{check_form, parts_of, reserved, words_make_a_name};
pub use literal::{literal_makes_an_entity, quote_place, read_literal, words_before_quote};
pub use location::{Loc, Span};
pub use node::Node;
pub use non_empty::{NonEmpty, NonEmptyIter};
pub use unescaping::{BadEscape, unescape, unescape_undoes_escape};
pub use words::{
    is_cedar, is_primitive_word, is_reserved_word, is_word, is_word_byte, is_word_start,
};
