//! Sinks in memory.

use crate::given::failing_writes;
use ct_base::Mem;
use ct_outside::{MemSink, Sink};
use ct_show_rows::{Row, push_escaped};
use std::alloc::Global;

/// The sink of a row, with the room of the option `room`.
pub fn sink_of(alloc: Global, row: &Row) -> Mem<MemSink> {
    let room = row.value_of("room").and_then(|room| room.parse().ok());
    MemSink::new(alloc, room.unwrap_or(100_000), failing_writes(alloc, row)?)
}

/// Writes a piece, and appends how many bytes the sink took.
pub fn write_piece(alloc: Global, piece: &str, sink: &mut MemSink, out: &mut String) -> Mem<()> {
    match sink.write(piece.as_bytes()) {
        Ok(count) => {
            let text = format!(in alloc; "{count}")?;
            out.push_str(text.as_str())?;
            Ok(())
        }
        Err(_) => Ok(out.push_str("failed")?),
    }
}

/// Appends what a sink took.
pub fn push_taken(sink: &MemSink, out: &mut String) -> Mem<()> {
    out.push('"')?;
    push_escaped(sink.taken(), out)?;
    out.push('"')?;
    Ok(())
}
