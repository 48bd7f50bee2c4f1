// SPDX-License-Identifier: Apache-2.0
//! Reviews: what is made of an object in JSON that holds schemas, and perhaps data that they judge; and what is told of
//! refusals.
#![tactic(auto)]

mod comparing;
mod holding;
mod judged;
mod judging;
mod lines;
mod merging;
mod printing;
mod refusal;
mod reviewing;
mod schemas_not_texts;

pub use judged::Judged;
pub use printing::printed;
pub use refusal::{refusal_text, refused};
pub use reviewing::reviewed;
pub use schemas_not_texts::SchemasNotTexts;
