// SPDX-License-Identifier: Apache-2.0
ghost use Rattle.std.specs.Prelude.{◌≡◌, ◌∷◌, [], IsTrue, EachIndex, slice_index};
ghost use Rattle.cedar_listing.specs.Listing.{quoted_text};
ghost use Rattle.cedar_streams.specs.Writes.{Writes};
ghost use Rattle.cedar_text.specs.Escapes.{escaped, escaped_byte};

use cedar_names::EscapedByte;
use cedar_streams::{Sink, SinkFailed, write_all, write_str};

/// Writes a text between quotes, escaped.
#[tactic(auto, using(cedar_streams::proofs::InOrder::in_order))]
pub(crate) fn write_quoted<K: Sink>(text: &str, out: &mut K) -> Result<(), SinkFailed>
    ensures { Writes K.written K.faults out.old out.new (quoted_text text.now) result }
{
    write_str(out, "\"")?;
    write_escaped(text, out)?;
    write_str(out, "\"")
}

/// Writes a text as it stands between quotes.
fn write_escaped<K: Sink>(text: &str, out: &mut K) -> Result<(), SinkFailed>
    ensures { Writes K.written K.faults out.old out.new (escaped text.now) result }
{
    write_escaped_bytes(text.as_bytes(), out)
}

/// Writes bytes as they stand between quotes, at once where none of them is escaped.
fn write_escaped_bytes<K: Sink>(bytes: &[u8], out: &mut K) -> Result<(), SinkFailed>
    ensures { Writes K.written K.faults out.old out.new (escaped bytes.now) result }
{
    if are_plain(bytes) {
        write_all(out, bytes)
    } else {
        write_each_escaped(bytes, out)
    }
}

/// Whether each byte stands for itself between quotes; it may answer no for such bytes too.
fn are_plain(bytes: &[u8]) -> bool
    ensures { IsTrue result
        → EachIndex bytes.now (λ k. escaped_byte (slice_index bytes.now k) ≡ slice_index bytes.now k
        ∷ []) }
{
    bytes.iter().all(|byte| is_plain(*byte))
}

/// Writes each byte of a text as it stands between quotes.
fn write_each_escaped<K: Sink>(text: &[u8], out: &mut K) -> Result<(), SinkFailed>
    ensures { Writes K.written K.faults out.old out.new (escaped text.now) result }
{
    for byte in text {
        write_byte(*byte, out)?;
    }
    Ok(())
}

/// Writes a byte as it stands between quotes.
fn write_byte<K: Sink>(byte: u8, out: &mut K) -> Result<(), SinkFailed>
    ensures { Writes K.written K.faults out.old out.new (escaped_byte byte) result }
{
    let written = EscapedByte::of(byte);
    write_all(out, written.as_bytes())
}

/// Whether a byte stands for itself between quotes; it may answer no for such a byte too.
fn is_plain(byte: u8) -> bool
    ensures { IsTrue result → escaped_byte byte ≡ byte ∷ [] }
{
    byte > b'\\' && byte < 127 || byte > b'\'' && byte < b'\\' || byte == b' '
}
