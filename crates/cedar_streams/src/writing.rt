// SPDX-License-Identifier: Apache-2.0
ghost use Rattle.cedar_streams.specs.Writes.{Writes};

use crate::sink::{Sink, SinkFailed};

/// Writes the whole text, and takes no memory. A failure leaves a front of the text written.
#[tactic(auto, using(crate::proofs::Front::next_front))]
pub fn write_all<K: Sink>(sink: &mut K, text: &[u8]) -> Result<(), SinkFailed>
    ensures { Writes K.written K.faults sink.old sink.new text.now result }
{
    let mut rest = text;
    while !rest.is_empty() {
        let taken = sink.write(rest)?;
        rest = &rest[taken..];
    }
    Ok(())
}

/// Writes the whole text, and takes no memory. A failure leaves a front of the text written.
pub fn write_str<K: Sink>(sink: &mut K, text: &str) -> Result<(), SinkFailed>
    ensures { Writes K.written K.faults sink.old sink.new text.now result }
{
    write_all(sink, text.as_bytes())
}
