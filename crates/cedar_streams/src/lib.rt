// SPDX-License-Identifier: Apache-2.0
//! Sources and sinks of bytes that count their faults.
#![tactic(auto)]

mod copying;
mod mem_sink;
mod mem_source;
mod reader;
mod reading;
mod sink;
mod source;
mod std_sink;
mod std_source;
mod sure_source;
mod writer;
mod writing;

pub use mem_sink::MemSink;
pub use mem_source::MemSource;
pub use reader::Reader;
pub use reading::{ReadStop, read_all};
pub use sink::{Sink, SinkFailed};
pub use source::{Source, SourceFailed};
pub use std_sink::StdSink;
pub use std_source::StdSource;
pub use sure_source::SureSource;
pub use writer::Writer;
pub use writing::{write_all, write_str};
