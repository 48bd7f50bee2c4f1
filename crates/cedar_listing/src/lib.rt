// SPDX-License-Identifier: Apache-2.0
//! The listing of a resolved schema, a line for each entity type, for each action and for each warning, and the line of
//! their counts.
#![tactic(auto)]

mod counts;
mod kinds;
mod listing;
mod lists;
mod names;
mod quoting;
mod type_text;
mod warnings;

pub use cedar_convert_warnings::SchemaWarning;
pub use cedar_resolved::ValidatorSchema;
pub use cedar_streams::{Sink, SinkFailed};
pub use counts::write_counts;
pub use listing::write_listing;
