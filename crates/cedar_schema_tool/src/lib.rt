// SPDX-License-Identifier: Apache-2.0
//! The program's work: from words and bytes to what a command makes of a text, or to a refusal.
#![tactic(auto)]

mod process;
mod running;

pub use cedar_answers::{write_counts, write_listing};
pub use cedar_commands::{Command, Review, Status, asked};
pub use cedar_generator::generate;
pub use cedar_streams::{
    MemSink, MemSource, ReadStop, Reader, Sink, SinkFailed, Source, SourceFailed, StdSink,
    StdSource, SureSource, Writer, read_all, write_all, write_str,
};
pub use process::run_process;
pub use running::{LONGEST_TEXT, run};
