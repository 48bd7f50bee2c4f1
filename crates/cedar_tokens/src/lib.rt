// SPDX-License-Identifier: Apache-2.0
//! The tokens of the human schema syntax: words, string literals and marks, each with its place.
#![tactic(auto)]

mod lexeme;
mod lexer;
mod literal;
mod piece;
mod token;

pub use lexeme::{Lexeme, lexemes};
pub use lexer::{
    longest_token, one_place, one_token_list, tokens, tokens_or_place, tokens_without_place,
};
pub use literal::literal_closes;
pub use token::{NoToken, Token, TokenKind};
